// From a text to a closed skin: how many darts, vertices, edges and faces the sheet has.
ghost use Rattle.std.specs.Prelude.{◌≡◌, min, length, Ok};
ghost use Rattle.intake.specs.Figures.{figure_of};
ghost use Rattle.sheet.specs.Form.{judge};
ghost use Rattle.sheet.specs.Sheet.{sheet};
ghost use Rattle.sheet.specs.Read.{sized};
ghost use Rattle.intake.specs.Surveys.{Surveyed, Holding};

use crate::fault::IntakeFault;
use closing::fault::SkinFault;
use closing::held::close_skin;
use mesh::DARTS;
use point::solid::SolidRecord;
use sheet::read::{read_sheet, sheet_sizes};
use sheet::record::Sizes;
use sheet::tables::SheetTables;
use skin::count::{Counts, count};
use skin::skin::Skin;
use skin::table::TableSkin;
use std::alloc::Global;

#[derive(Clone, Copy)]
pub struct Survey {
    pub darts: u32,
    pub counts: Counts,
    // vertices less edges plus faces
    pub figure: i64,
}

fn figure(counts: Counts) -> i64
    ensures { result ≡ figure_of counts }
{
    i64::from(counts.vertices) - i64::from(counts.edges) + i64::from(counts.faces)
}

// Reads the sheet that a text is into tables of its sizes, and closes it. (The dart tables are three parameters, as for closing.)
fn closed<'a>(
    text: &[u8],
    sizes: Sizes,
    mut tables: SheetTables<'_>,
    next: &'a mut [u32],
    prev: &'a mut [u32],
    twin: &'a mut [u32],
) -> Result<TableSkin<'a>, SkinFault>
    requires sizes { sized (judge sheet text.now 0) ≡ Ok sizes }
    requires points { length tables.points.now ≡ sizes.points }
    requires lengths { length tables.lengths.now ≡ sizes.faces }
    requires corners { length tables.corners.now ≡ sizes.corners }
    requires next { length next.old ≡ min sizes.corners 1048576 }
    requires prev { length prev.old ≡ min sizes.corners 1048576 }
    requires twin { length twin.old ≡ min sizes.corners 1048576 }
    ensures { Holding text.now result }
{
    read_sheet(text, 0, &mut tables)?;
    let named = sizes.points as u32;
    let SheetTables {
        points: _,
        lengths,
        corners,
    } = tables;
    close_skin(named, lengths, corners, next, prev, twin)
}

// Reads the sheet that a text is, closes it and counts, in tables as long as the sheet wants.
pub fn close_text(heap: Global, text: &[u8]) -> Result<Survey, IntakeFault>
    ensures { Surveyed text.now result }
{
    let sizes = sheet_sizes(text, 0)?;
    let mut points = vec![in heap; SolidRecord { x: 0, y: 0, z: 0 }; sizes.points]?;
    let mut lengths = vec![in heap; 0u32; sizes.faces]?;
    let mut corners = vec![in heap; 0u32; sizes.corners]?;
    let places = sizes.corners.min(DARTS as usize);
    let mut next = vec![in heap; 0u32; places]?;
    let mut prev = vec![in heap; 0u32; places]?;
    let mut twin = vec![in heap; 0u32; places]?;
    let tables = SheetTables {
        points: &mut points,
        lengths: &mut lengths,
        corners: &mut corners,
    };
    let skin = closed(text, sizes, tables, &mut next, &mut prev, &mut twin)?;
    let counts = count(&skin);
    Ok(Survey {
        darts: skin.n(),
        counts,
        figure: figure(counts),
    })
}

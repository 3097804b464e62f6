// Two triangles split and averaged once, and the refined sheet as text.
use crate::shapes::triangles;
use crate::show::show;
use crate::stop::Stop;
use point::solid::SolidRecord;
use point::solid::kind::Solid;
use refusal::Refusal;
use skin::skin::Skin;
use skin::table::TableSkin;
use workpiece::calls::may_open;
use workpiece::piece::{Answer, Workpiece};
use writer::piece::write_sheet;

// Prints the sheet of a workpiece.
fn print_sheet<S: Skin>(
    rt: &HostRuntime,
    piece: &Workpiece<S>,
    table: &[SolidRecord],
) -> Result<(), Stop> {
    let mut buf = [0u8; 1024];
    let length = write_sheet(rt.alloc(), piece, table, &mut buf)?;
    for b in buf.iter().take(length) {
        print!(rt; "{}", char::from(*b))?;
    }
    Ok(())
}

// The triangles 0 1 2 and 0 2 1 with the points (0, 0, 0), (12, 0, 0) and (0, 12, 0).
pub fn written(rt: &HostRuntime) -> Result<(), Stop> {
    println!(rt; "triangles, split and averaged once, as a sheet")?;
    let skin = triangles().map_err(Refusal::from)?;
    let at = |x, y| SolidRecord { x, y, z: 0 };
    let (a, b, c) = (at(0, 0), at(12, 0), at(0, 12));
    let mut table = [a; 24];
    table[..6].copy_from_slice(&[a, b, c, a, c, b]);
    may_open::<TableSkin, Solid>(&skin, &table).map_err(Refusal::from)?;
    let mut piece = Workpiece::open(skin);
    show::<Solid>(rt, Answer::Split(piece.split::<Solid>(&mut table)))?;
    show::<Solid>(rt, Answer::Average(piece.average::<Solid>(&mut table)))?;
    print_sheet(rt, &piece, &table)
}

// The tables that a sheet is read into.
ghost use Rattle.std.specs.Prelude.{◌≡◌, ◌<◌, ◌≤◌, MatchResult};
ghost use Rattle.sheet.specs.declared.fault.TextFault.TheVariants.{Short};
ghost use Rattle.sheet.specs.Read.{tables_of, room_in};

use crate::fault::TextFault;
use crate::record::Sizes;
use point::solid::SolidRecord;

#[derive(Drop)]
pub struct SheetTables<'a> {
    pub points: &'a mut [SolidRecord],
    // how many corners each face has
    pub lengths: &'a mut [u32],
    // the vertex number at each corner, face after face
    pub corners: &'a mut [u32],
}

// Declines where a table has fewer places than are wanted.
fn room(places: usize, wanted: usize) -> Result<(), TextFault>
    ensures { MatchResult result (λ _. wanted ≤ places) (λ e. (e ≡ Short wanted) × (places < wanted)) }
{
    if places < wanted {
        Err(TextFault::Short(wanted))
    } else {
        Ok(())
    }
}

impl SheetTables<'_> {
    // Declines where one of the tables, points first, has fewer places than a sheet of these sizes wants.
    pub(crate) fn check_room(&self, sizes: Sizes) -> Result<(), TextFault>
        ensures { result ≡ room_in (tables_of self.now) sizes }
    {
        room(self.points.len(), sizes.points)?;
        room(self.lengths.len(), sizes.faces)?;
        room(self.corners.len(), sizes.corners)
    }
}

// The sheet of a workpiece of solids.
ghost use Rattle.workpiece.specs.Law.{work};
ghost use Rattle.writer.specs.Turned.{turned};
ghost use Rattle.writer.specs.Outcome.{Writes};

use crate::fault::WriteFault;
use crate::write::write_skin;
use point::solid::SolidRecord;
use skin::skin::Skin;
use std::alloc::Global;
use workpiece::piece::Workpiece;

// Writes the sheet of the carrier and its points, and answers its length. Faces are followed backward where splits plus averages are
// odd, since each of them turns the carrier's faces about.
pub fn write_sheet<S: Skin>(
    heap: Global,
    piece: &Workpiece<S>,
    points: &[SolidRecord],
    buf: &mut [u8],
) -> Result<usize, WriteFault>
    ensures { Writes (work S.Skin piece.now).carrier points.now (turned (work S.Skin piece.now)) buf.old buf.new result }
{
    let backward = piece.splits() % 2 != piece.averages() % 2;
    write_skin(heap, piece.carrier(), points, backward, buf)
}

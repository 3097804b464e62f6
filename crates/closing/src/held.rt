// Closing a sheet into a table skin.
ghost use Rattle.closing.specs.Sheet.{sheet};
ghost use Rattle.closing.specs.Causes.{places};
ghost use Rattle.closing.specs.Held.{Held};

use crate::fault::SkinFault;
use crate::tables::close;
use skin::table::TableSkin;

// Closes the sheet, and answers its skin over the tables that are lent. (Three parameters, as for `close`.)
pub fn close_skin<'a>(
    points: u32,
    lengths: &[u32],
    corners: &[u32],
    next: &'a mut [u32],
    prev: &'a mut [u32],
    twin: &'a mut [u32],
) -> Result<TableSkin<'a>, SkinFault>
    ensures { Held (sheet points lengths.now corners.now) (places (sheet points lengths.now corners.now) next.old prev.old twin.old) result }
{
    let n = close(points, lengths, corners, next, prev, twin)?;
    Ok(TableSkin::new(n, next, prev, twin).unwrap())
}

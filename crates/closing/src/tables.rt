// Closing a sheet: filling the dart tables of its skin.
ghost use Rattle.closing.specs.Sheet.{sheet};
ghost use Rattle.closing.specs.Closed.{Closed};

use crate::faces::{count, first_odd};
use crate::fault::{SkinFault, none_or};
use crate::judge::settle;
use crate::parts::Parts;

// Numbers the darts corner by corner and fills next, prev and twin; answers how many there are.
// The tables are three parameters, since a contract cannot say what a struct of `&mut` slices leaves in each.
pub fn close<'a>(
    points: u32,
    lengths: &'a [u32],
    corners: &'a [u32],
    next: &mut [u32],
    prev: &mut [u32],
    twin: &mut [u32],
) -> Result<u32, SkinFault>
    ensures { Closed (sheet points lengths.now corners.now) next.old prev.old twin.old next.new prev.new twin.new result }
{
    none_or(first_odd(lengths), SkinFault::Face)?;
    let n = count(lengths).ok_or(SkinFault::TooMany)?;
    let size = n as usize;
    if corners.len() < size || next.len() < size || prev.len() < size || twin.len() < size {
        return Err(SkinFault::Short(n));
    }
    let parts = Parts {
        points,
        lengths,
        corners,
    };
    settle(
        &parts,
        &mut next[..size],
        &mut prev[..size],
        &mut twin[..size],
    )?;
    Ok(n)
}

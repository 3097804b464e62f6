// Spreading the points of a sheet over its darts.
ghost use Rattle.std.specs.Prelude.{◌≡◌, true, false, length, is_ok};
ghost use Rattle.closing.specs.Spread.{told as outcome, Spread, Alike};

use crate::faces::first_stray;
use crate::fault::{SkinFault, none_or};

// Copies each corner's point to its dart.
pub fn spread<T: Copy>(
    n: u32,
    corners: &[u32],
    points: &[T],
    table: &mut [T],
) -> Result<(), SkinFault>
    ensures answer { result ≡ outcome n corners.now (length points.now) (length table.old) }
    ensures taken { is_ok result ≡ true → Spread n corners.now points.now table.old table.new }
    ensures rings { is_ok result ≡ true → Alike n corners.now table.new }
    ensures declined { is_ok result ≡ false → table.new ≡ table.old }
{
    let size = n as usize;
    if corners.len() < size || table.len() < size {
        return Err(SkinFault::Short(n));
    }
    none_or(first_stray(points.len(), n, corners), SkinFault::Stray)?;
    for (h, place) in table[..size].iter_mut().enumerate() {
        *place = points[corners[h] as usize];
    }
    Ok(())
}

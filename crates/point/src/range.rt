// The range of a coordinate and the size of a sum, the same for every kind.
ghost use Rattle.std.specs.Prelude.{◌≡◌, not};
ghost use Rattle.std.specs.Result.{result_err};
ghost use Rattle.point.specs.Range.{in_range};
ghost use Rattle.point.specs.Made.{range_fault};

use crate::fault::PointFault;

// The largest absolute value of a coordinate.
pub const LIMIT: u32 = 16_777_216;

// How many points one sum takes.
pub const FULL: u32 = 64;

// Whether a number is out of range.
fn is_outside(number: i32) -> bool
    ensures { result ≡ not (in_range number) }
{
    number.unsigned_abs() > LIMIT
}

// Declines the first number that is out of range.
pub fn check_range(numbers: &[i32]) -> Result<(), PointFault>
    ensures { result_err result ≡ range_fault 0 numbers.now }
{
    match numbers.iter().position(|number| is_outside(*number)) {
        Some(i) => Err(PointFault::OutOfRange(i)),
        None => Ok(()),
    }
}

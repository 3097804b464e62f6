// Why numbers make no point, and how that is told.
ghost use Rattle.std.specs.Prelude.{◌≡◌};
ghost use Rattle.point.specs.Refusals.{refusal_of};

use refusal::Refusal;

#[derive(Clone, Copy, PartialEq, Eq, Debug)]
pub enum PointFault {
    // the number of the first coordinate out of range
    OutOfRange(usize),
    // the total of a row that is not the fixed one
    RowTotal(i64),
}

impl From<PointFault> for Refusal {
    ghost from_gives = { λ f r. r ≡ refusal_of f };

    fn from(fault: PointFault) -> Refusal {
        match fault {
            PointFault::OutOfRange(i) => Refusal::with(3, i as i128),
            PointFault::RowTotal(total) => Refusal::with(19, total as i128),
        }
    }
}

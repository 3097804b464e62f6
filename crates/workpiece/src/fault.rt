// Why a call of a workpiece declines.
ghost use Rattle.std.specs.Prelude.{◌≡◌};
ghost use Rattle.workpiece.specs.Refusals.{refusal_of};

use refusal::Refusal;

// Each case carries the value that it returns.
#[derive(Clone, Copy, PartialEq, Eq, Debug)]
pub enum WorkFault {
    // a table is too short: places needed
    Short(usize),
    // not a dart of the carrier
    NoDart(u32),
    // the point of this dart, the smallest such, differs from that of its turn
    Differs(u32),
    // a split would pass 1,048,576 darts
    TooManyDarts,
    // eight splits are made
    SplitsSpent,
    // 255 averages are made
    AveragesSpent,
}

impl From<WorkFault> for Refusal {
    ghost from_gives = { λ f r. r ≡ refusal_of f };

    // The number of the cause and the value returned.
    fn from(fault: WorkFault) -> Refusal {
        match fault {
            WorkFault::Short(places) => Refusal::with(1, places as i128),
            WorkFault::NoDart(dart) => Refusal::with(2, dart as i128),
            WorkFault::Differs(dart) => Refusal::with(4, dart as i128),
            WorkFault::TooManyDarts => Refusal::bare(5),
            WorkFault::SplitsSpent => Refusal::bare(6),
            WorkFault::AveragesSpent => Refusal::bare(7),
        }
    }
}

// Why a call on a skin declines.
ghost use Rattle.std.specs.Prelude.{◌≡◌};
ghost use Rattle.skin.specs.Refusals.{refusal_of};

use refusal::Refusal;

// A side of a torus.
#[derive(Clone, Copy, PartialEq, Eq, Debug)]
pub enum Side {
    Width,
    Height,
}

// Each case carries the value that it returns.
#[derive(Clone, Copy, PartialEq, Eq, Debug)]
pub enum Fault {
    // a table is too short: the places needed
    Short(u32),
    // more darts than a skin may have
    TooMany,
    // the ladder has all the bits that it may have
    Rungs,
    // the tables break a law: the smallest dart at fault
    Broken(u32),
    // a side of a torus is out of range: 0 is returned for the width, 1 for the height
    Side(Side),
}

// The number of the cause and the value returned.
impl From<Fault> for Refusal {
    ghost from_gives = { λ f r. r ≡ refusal_of f };

    fn from(fault: Fault) -> Refusal {
        match fault {
            Fault::Short(places) => Refusal::with(1, places as i128),
            Fault::TooMany => Refusal::bare(5),
            Fault::Rungs => Refusal::bare(6),
            Fault::Broken(dart) => Refusal::with(20, dart as i128),
            Fault::Side(Side::Width) => Refusal::with(21, 0),
            Fault::Side(Side::Height) => Refusal::with(21, 1),
        }
    }
}

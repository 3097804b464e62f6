// A pull row: how strongly each handle moves a point. The weights of every row have one total.
ghost use Rattle.std.specs.Prelude.{◌≡◌, ℕ, length, pos, ◌*ℤ◌};
ghost use Rattle.point.specs.Range.{InRange};
ghost use Rattle.point.specs.Points.{coordinate, total};
ghost use Rattle.point.specs.Dealing.{handle_count, row_whole};

pub mod kind;

use crate::tally::Tally;

// How many handles a row has a weight for.
pub const HANDLES: usize = 4;

// The total of the weights of every row.
pub const ROW_TOTAL: i32 = 65_536;

// What a table of points holds: any numbers, one for each handle.
#[derive(Clone, Copy)]
pub struct PullRecord {
    pub weights: [i32; HANDLES],
}

// A weight may be negative, where the others make up for it.
#[derive(Clone, Copy, PartialEq, Eq)]
pub struct PullRow {
    weights: [i32; HANDLES],
    ghost long: { length weights ≡ handle_count },
    ghost ok: { (i : ℕ) → InRange (coordinate weights i) },
    ghost whole: { total weights ≡ row_whole },
}

#[derive(Clone, Copy)]
pub struct PullSum {
    tally: Tally<HANDLES>,
    ghost whole: { total tally.totals ≡ pos tally.count *ℤ row_whole },
}

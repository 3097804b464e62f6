// A point of a solid in units of 1/1024 mm, the plain record of it, and sums of such points.
ghost use Rattle.point.specs.Range.{InRange};

pub mod kind;

use crate::tally::Tally;

// What a table of points holds: any three numbers.
#[derive(Clone, Copy, PartialEq, Eq, Debug)]
pub struct SolidRecord {
    pub x: i32,
    pub y: i32,
    pub z: i32,
}

#[derive(Clone, Copy, PartialEq, Eq)]
pub struct SolidPoint {
    x: i32,
    y: i32,
    z: i32,
    ghost ok: { InRange x × InRange y × InRange z },
}

#[derive(Clone, Copy)]
pub struct SolidSum {
    tally: Tally<3>,
}

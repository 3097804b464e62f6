// The solid kind: points of three coordinates, each averaged to the nearest whole number, halves up.
ghost use Rattle.std.specs.Prelude.{◌≡◌, Some};
ghost use Rattle.point.specs.Points.{mean_answer};
ghost use Rattle.point.specs.Made.{range_fault, Makes};
ghost use Rattle.point.specs.Solids.{three, count_of, numbers_of, sums_of, meant_by, mean_by, NearestEach};
ghost use Rattle.point.specs.SolidPoints.{solid_laws};

use crate::fault::PointFault;
use crate::kind::PointKind;
use crate::range::check_range;
use crate::solid::{SolidPoint, SolidRecord, SolidSum};
use crate::tally::{Full, Tally};

impl SolidPoint {
    pub fn new(x: i32, y: i32, z: i32) -> Result<SolidPoint, PointFault>
        ensures { Makes numbers_of (range_fault 0 (three x y z)) (three x y z) result }
    {
        check_range(&[x, y, z])?;
        Ok(SolidPoint { x, y, z })
    }

    pub fn x(&self) -> i32
        ensures { result ≡ self.now.x }
    {
        self.x
    }

    pub fn y(&self) -> i32
        ensures { result ≡ self.now.y }
    {
        self.y
    }

    pub fn z(&self) -> i32
        ensures { result ≡ self.now.z }
    {
        self.z
    }
}

impl SolidSum {
    // The mean of the points added, none where there are none.
    pub fn mean(&self) -> Option<SolidPoint>
        ensures value { result ≡ mean_answer mean_by (count_of self.now) (sums_of self.now) }
        ensures nearest { (p : SolidPoint) → result ≡ Some p → NearestEach (count_of self.now) (sums_of self.now) p }
    {
        let columns = self.tally.columns()?;
        let [x, y, z] = columns.map(|column| column.nearest());
        Some(SolidPoint { x, y, z })
    }
}

pub struct Solid;

impl PointKind for Solid {
    type Record = SolidRecord;

    type Point = SolidPoint;

    type Sum = SolidSum;

    ghost width = { 3 };

    ghost slack = { 1 };

    ghost meant = { meant_by };

    ghost numbers = { numbers_of };

    ghost count = { count_of };

    ghost sums = { sums_of };

    ghost mean = { mean_by };

    ghost lawful = { solid_laws };

    ghost counted = { λ s. s.tally.few };

    fn coordinates() -> usize {
        3
    }

    fn load(stored: &SolidRecord) -> SolidPoint {
        SolidPoint::new(stored.x, stored.y, stored.z).unwrap_or(SolidPoint { x: 0, y: 0, z: 0 })
    }

    fn store(point: &SolidPoint) -> SolidRecord {
        SolidRecord {
            x: point.x,
            y: point.y,
            z: point.z,
        }
    }

    fn coordinate(point: &SolidPoint, i: usize) -> Option<i32> {
        match i {
            0 => Some(point.x),
            1 => Some(point.y),
            2 => Some(point.z),
            _ => None,
        }
    }

    fn alike(a: &SolidPoint, b: &SolidPoint) -> bool {
        a == b
    }

    fn start() -> SolidSum {
        SolidSum {
            tally: Tally::empty(),
        }
    }

    fn add(sum: &mut SolidSum, point: &SolidPoint) -> Result<(), Full> {
        sum.tally.add(&[point.x, point.y, point.z])
    }

    fn mean(sum: &SolidSum) -> Option<SolidPoint> {
        sum.mean()
    }
}

// The mean of one coordinate.
ghost use Rattle.std.specs.Prelude.{◌≡◌, ◌≤◌};
ghost use Rattle.point.specs.Range.{InRange};
ghost use Rattle.point.specs.Dealing.{floor_of, gets};
ghost use Rattle.point.specs.Solids.{half_up};

use crate::tally::Column;

impl Column {
    // To the nearest whole number, halves up.
    pub(crate) fn nearest(self) -> i32
        ensures value { result ≡ half_up self.count self.total }
        ensures range { InRange result }
    {
        let k = i64::from(self.count);
        (2 * self.total + k).div_euclid(2 * k) as i32
    }

    // Rounded down.
    pub(crate) fn floor(self) -> i32
        ensures value { result ≡ floor_of self.count self.total }
        ensures range { InRange result }
    {
        self.total.div_euclid(i64::from(self.count)) as i32
    }

    // What is added to the floor of the units left: one if the division leaves a remainder.
    pub(crate) fn extra(self, left: u32) -> u32
        ensures value { result ≡ gets self.count left self.total }
        ensures few { (result ≤ 1) × (result ≤ left) }
    {
        let remainder = self.total.rem_euclid(i64::from(self.count));
        if remainder > 0 { left.min(1) } else { 0 }
    }
}

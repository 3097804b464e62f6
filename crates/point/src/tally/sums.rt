// A sum grows by one point, up to its size.
ghost use Rattle.std.specs.Prelude.{◌≡◌, ℕ, ◌+◌, ◌<◌, [], if◌then◌else◌, is_ok, nat_lt, map, MatchOption};
ghost use Rattle.point.specs.Range.{full_count, InRange};
ghost use Rattle.point.specs.Columns.{parts, with_count};
ghost use Rattle.point.specs.Points.{coordinate, totals as totalled, one_more};

use crate::range::FULL;
use crate::tally::{Column, Full, Tally};

impl<const N: usize> Tally<N> {
    // The sum of no points.
    pub(crate) fn empty() -> Tally<N>
        ensures count { result.count ≡ 0 }
        ensures totals { result.totals ≡ totalled N [] }
    {
        Tally {
            count: 0,
            totals: [0; N],
        }
    }

    // One point more, of these coordinates. A full sum stays as it is.
    pub(crate) fn add(&mut self, numbers: &[i32; N]) -> Result<(), Full>
        requires { (i : ℕ) → InRange (coordinate numbers.now i) }
        ensures answer { is_ok result ≡ nat_lt self.old.count full_count }
        ensures count { self.new.count ≡ (if is_ok result then self.old.count + 1 else self.old.count) }
        ensures totals { self.new.totals ≡ (if is_ok result then one_more N self.old.totals numbers.now else self.old.totals) }
    {
        if self.count >= FULL {
            return Err(Full);
        }
        let mut totals = self.totals;
        for (i, total) in totals.iter_mut().enumerate() {
            *total += i64::from(numbers[i]);
        }
        *self = Tally {
            count: self.count + 1,
            totals,
        };
        Ok(())
    }

    // The total of each coordinate with the count, or none where there are no points.
    pub(crate) fn columns(&self) -> Option<[Column; N]>
        ensures { MatchOption result (self.now.count ≡ 0) (λ cs. (0 < self.now.count) × (map parts cs ≡ map (with_count self.now.count) self.now.totals)) }
    {
        if self.count == 0 {
            return None;
        }
        let mut columns = [Column {
            count: self.count,
            total: 0,
        }; N];
        // not `map`: in generic code nothing is known of what its closure answers
        for (i, total) in self.totals.iter().enumerate() {
            columns[i] = Column {
                count: self.count,
                total: *total,
            };
        }
        Some(columns)
    }
}

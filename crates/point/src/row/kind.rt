// The pull row kind: rows whose mean keeps their total.
ghost use Rattle.std.specs.Prelude.{◌≡◌, List, length, ℤ, Some};
ghost use Rattle.point.specs.Points.{total as total_of, mean_answer};
ghost use Rattle.point.specs.Made.{row_fault, Makes};
ghost use Rattle.point.specs.Dealing.{handle_count, Shares};
ghost use Rattle.point.specs.Rows.{first, count_of, numbers_of, sums_of, meant_by, mean_by};
ghost use Rattle.point.specs.RowPoints.{row_laws};

use crate::fault::PointFault;
use crate::kind::PointKind;
use crate::range::check_range;
use crate::row::{HANDLES, PullRecord, PullRow, PullSum, ROW_TOTAL};
use crate::tally::{Full, Tally};

// The total of some weights.
fn row_total(weights: &[i32; HANDLES]) -> i64
    ensures { result ≡ total_of weights.now }
{
    let mut total = 0;
    for weight in weights {
        total += i64::from(*weight);
    }
    total
}

impl PullRow {
    pub fn new(weights: [i32; HANDLES]) -> Result<PullRow, PointFault>
        ensures { Makes numbers_of (row_fault weights) weights result }
    {
        check_range(&weights)?;
        let total = row_total(&weights);
        if total != i64::from(ROW_TOTAL) {
            return Err(PointFault::RowTotal(total));
        }
        Ok(PullRow { weights })
    }

    // All weight on the first handle.
    fn first() -> PullRow
        ensures { result ≡ first }
    {
        let mut weights = [0; HANDLES];
        weights[0] = ROW_TOTAL;
        PullRow { weights }
    }
}

impl PullSum {
    // The mean of the rows added, none where there are none. Its weights share the totals, and no others do.
    pub fn mean(&self) -> Option<PullRow>
        ensures value { result ≡ mean_answer mean_by (count_of self.now) (sums_of self.now) }
        ensures shares { (p : PullRow) → result ≡ Some p → Shares (count_of self.now) (sums_of self.now) (numbers_of p) }
        ensures only { (p : PullRow) (ws : List ℤ) → result ≡ Some p → length ws ≡ handle_count → Shares (count_of self.now) (sums_of self.now) ws → ws ≡ numbers_of p }
    {
        let columns = self.tally.columns()?;
        let mut weights = columns.map(|column| column.floor());
        // the units that are missing go one each to the first weights whose division left a remainder
        let mut left = (i64::from(ROW_TOTAL) - row_total(&weights)) as u32;
        for (i, weight) in weights.iter_mut().enumerate() {
            let unit = columns[i].extra(left);
            *weight += unit as i32;
            left -= unit;
        }
        Some(PullRow { weights })
    }
}

pub struct Pull;

impl PointKind for Pull {
    type Record = PullRecord;

    type Point = PullRow;

    type Sum = PullSum;

    ghost width = { handle_count };

    ghost slack = { 2 };

    ghost meant = { meant_by };

    ghost numbers = { numbers_of };

    ghost count = { count_of };

    ghost sums = { sums_of };

    ghost mean = { mean_by };

    ghost lawful = { row_laws };

    ghost counted = { λ s. s.tally.few };

    fn coordinates() -> usize {
        HANDLES
    }

    fn load(stored: &PullRecord) -> PullRow {
        PullRow::new(stored.weights).unwrap_or_else(|_| PullRow::first())
    }

    fn store(point: &PullRow) -> PullRecord {
        PullRecord {
            weights: point.weights,
        }
    }

    fn coordinate(point: &PullRow, i: usize) -> Option<i32> {
        point.weights.get(i).copied()
    }

    fn alike(a: &PullRow, b: &PullRow) -> bool {
        a == b
    }

    fn start() -> PullSum {
        PullSum {
            tally: Tally::empty(),
        }
    }

    fn add(sum: &mut PullSum, point: &PullRow) -> Result<(), Full> {
        sum.tally.add(&point.weights)
    }

    fn mean(sum: &PullSum) -> Option<PullRow> {
        sum.mean()
    }
}

// The interface of point kinds: what generic code over points is proved from.
ghost use Rattle.std.specs.Prelude.{◌≡◌, ℕ, ◌+◌, ◌≤◌, List, [], ℤ, if◌then◌else◌, Decides, is_ok, nat_lt};
ghost use Rattle.point.specs.Range.{full_count};
ghost use Rattle.point.specs.Points.{Point as Coordinates, KindLaws, coordinate as nth, totals as totalled, one_more, below, mean_answer};

use crate::tally::Full;

// A kind of point. A `Record` is the plain value that lies in a table, and means a `Point`; a `Sum` means a count and totals.
pub trait PointKind {
    type Record: Copy;

    type Point: Copy;

    type Sum: Drop;

    // how many coordinates a point has
    ghost width: { ℕ };

    // how far twice the mean may be from twice total over count
    ghost slack: { ℕ };

    // the coordinates of a point, in order
    ghost numbers: { Self.Point → Coordinates };

    // the point that a record means: that of its numbers, or a fixed one where they make none
    ghost meant: { Self.Record → Self.Point };

    // how many points were added to a sum
    ghost count: { Self.Sum → ℕ };

    // the total of each coordinate
    ghost sums: { Self.Sum → List ℤ };

    // the mean, of a count and totals
    ghost mean: { ℕ → List ℤ → Self.Point };

    fn coordinates() -> usize
        ensures { result ≡ width };

    fn load(stored: &Self::Record) -> Self::Point
        ensures { result ≡ meant stored.now };

    fn store(point: &Self::Point) -> Self::Record
        ensures { meant result ≡ point.now };

    fn coordinate(point: &Self::Point, i: usize) -> Option<i32>
        ensures { result ≡ below width i (nth (numbers point.now) i) };

    fn alike(a: &Self::Point, b: &Self::Point) -> bool
        ensures { Decides result (numbers a.now ≡ numbers b.now) };

    fn start() -> Self::Sum
        ensures count { count result ≡ 0 }
        ensures sums { sums result ≡ totalled width [] };

    // One point more. A full sum stays as it is.
    fn add(sum: &mut Self::Sum, point: &Self::Point) -> Result<(), Full>
        ensures answer { is_ok result ≡ nat_lt (count sum.old) full_count }
        ensures count { count sum.new ≡ (if is_ok result then count sum.old + 1 else count sum.old) }
        ensures sums { sums sum.new ≡ (if is_ok result then one_more width (sums sum.old) (numbers point.now) else sums sum.old) };

    // None for a sum of no points.
    fn mean(sum: &Self::Sum) -> Option<Self::Point>
        ensures { result ≡ mean_answer mean (count sum.now) (sums sum.now) };

    ghost lawful: { KindLaws width slack numbers mean };

    ghost counted: { (s : Self.Sum) → count s ≤ full_count };
}

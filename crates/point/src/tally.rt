// Sums of points: how many were added, and the total of each coordinate.
ghost use Rattle.std.specs.Prelude.{◌≡◌, ℕ, ◌<◌, ◌≤◌, length};
ghost use Rattle.point.specs.Range.{full_count, Summed};
ghost use Rattle.point.specs.Points.{coordinate};

pub mod means;
pub mod sums;

// The totals of some points' coordinates.
#[derive(Clone, Copy)]
pub struct Tally<const N: usize> {
    count: u32,
    totals: [i64; N],
    ghost few: { count ≤ full_count },
    ghost long: { length totals ≡ N },
    ghost ok: { (i : ℕ) → Summed count (coordinate totals i) },
}

// The total of one coordinate over some points, and how many they are: at least one.
#[derive(Clone, Copy)]
pub struct Column {
    count: u32,
    total: i64,
    ghost some: { 0 < count },
    ghost few: { count ≤ full_count },
    ghost ok: { Summed count total },
}

// A sum takes no more points.
#[derive(Clone, Copy, PartialEq, Eq, Debug)]
pub struct Full;

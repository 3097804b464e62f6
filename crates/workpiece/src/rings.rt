// The work round rings: sums and means over face rings, and writing round a ring.
// (A struct of a skin with its lent table would hold `covers`, but each of its methods would have to promise that the skin stays. That h is
// a dart is asked by each call: a type of darts would have to borrow the skin again.)
ghost use Rattle.std.specs.Prelude.{◌≡◌, ℕ, ◌*◌, ◌<◌, ◌≤◌, true, false, [], map, length, MatchOption, slice_index_or};
ghost use Rattle.mesh.specs.Mesh.{ring as round};
ghost use Rattle.mesh.specs.Count.{faces, leads};
ghost use Rattle.skin.specs.Skins.{mesh};
ghost use Rattle.skin.specs.Counts.{along};
ghost use Rattle.point.specs.Points.{totals};
ghost use Rattle.point.specs.Kinds.{place, mean_point};
ghost use Rattle.workpiece.specs.Outcomes.{ring_mean, Stored, Averaged, Split};

use point::kind::PointKind;
use skin::count::{Ring, follow};
use skin::orbit::orbit;
use skin::skin::Skin;

// The dart after h in its ring.
pub(crate) fn following<S: Skin>(skin: &S, ring: Ring, h: u32) -> u32
    requires { h < S.Skin.n skin.now }
    ensures { result ≡ along ring (mesh S.Skin skin.now) h }
{
    follow(skin, ring, h).unwrap()
}

// The sum of the points round the face ring of a dart, if no dart of the ring is smaller.
fn lead_sum<S: Skin, K: PointKind>(skin: &S, table: &[K::Record], h: u32) -> Option<K::Sum>
    requires within { h < S.Skin.n skin.now }
    requires covers { S.Skin.n skin.now ≤ length table.now }
    ensures { MatchOption result (leads (S.Skin.next skin.now) h ≡ false) (λ s. (leads (S.Skin.next skin.now) h ≡ true) × (K.PointKind.count s ≡ length (round (S.Skin.next skin.now) h)) × (K.PointKind.sums s ≡ totals K.PointKind.width (map (λ x. slice_index_or (map (place K.PointKind) table.now) x []) (round (S.Skin.next skin.now) h)))) }
{
    // (the dart before tells most darts that do not lead sooner than the walk)
    if skin.prev(h).unwrap() < h {
        return None;
    }
    let mut sum = K::start();
    for d in orbit(skin, Ring::Face, h) {
        if d < h {
            return None;
        }
        // a sum has room for the 64 darts that a ring may have
        let _ = K::add(&mut sum, &K::load(&table[d as usize]));
    }
    Some(sum)
}

// Puts a record on the whole ring of a dart.
pub(crate) fn ring_store<S: Skin, K: PointKind>(
    skin: &S,
    table: &mut [K::Record],
    h: u32,
    ring: Ring,
    p: K::Record,
)
    requires within { h < S.Skin.n skin.now }
    requires covers { S.Skin.n skin.now ≤ length table.old }
    ensures { Stored (along ring (mesh S.Skin skin.now)) h (place K.PointKind p) (map (place K.PointKind) table.old) (map (place K.PointKind) table.new) }
{
    for d in orbit(skin, ring, h) {
        table[d as usize] = p;
    }
}

// Gives each dart of the face ring of h the mean of a sum over it.
fn store_mean<S: Skin, K: PointKind>(skin: &S, table: &mut [K::Record], h: u32, sum: &K::Sum)
    requires within { h < S.Skin.n skin.now }
    requires covers { S.Skin.n skin.now ≤ length table.old }
    requires count { K.PointKind.count sum.now ≡ length (round (S.Skin.next skin.now) h) }
    requires sums { K.PointKind.sums sum.now ≡ totals K.PointKind.width (map (λ x. slice_index_or (map (place K.PointKind) table.old) x []) (round (S.Skin.next skin.now) h)) }
    ensures { Stored (S.Skin.next skin.now) h (ring_mean K.PointKind.width (mean_point K.PointKind) (mesh S.Skin skin.now) (map (place K.PointKind) table.old) h) (map (place K.PointKind) table.old) (map (place K.PointKind) table.new) }
{
    if let Some(p) = K::mean(sum) {
        let r = K::store(&p);
        ring_store::<S, K>(skin, table, h, Ring::Face, r);
    }
}

// Gives each dart the mean over its face ring, and answers how many rings there are.
pub(crate) fn average_faces<S: Skin, K: PointKind>(skin: &S, table: &mut [K::Record]) -> u32
    requires { S.Skin.n skin.now ≤ length table.old }
    ensures count { result ≡ faces (mesh S.Skin skin.now) }
    ensures places { Averaged K.PointKind.width (mean_point K.PointKind) (mesh S.Skin skin.now) (map (place K.PointKind) table.old) (map (place K.PointKind) table.new) }
{
    let mut rings = 0u32;
    for h in 0..skin.n() {
        if let Some(sum) = lead_sum::<S, K>(skin, table, h) {
            store_mean::<S, K>(skin, table, h, &sum);
            rings += 1;
        }
    }
    rings
}

// Copies the point of each of n places to four: place h to 4h up to 4h + 3, from the last down.
pub(crate) fn spread<K: PointKind>(table: &mut [K::Record], n: u32)
    requires few { 4 * n ≤ 1048576 }
    requires fits { 4 * n ≤ length table.old }
    ensures { Split n (map (place K.PointKind) table.old) (map (place K.PointKind) table.new) }
{
    for h in (0..n).rev() {
        let p = table[h as usize];
        let at = 4 * h as usize;
        // (four places copied as an array take a third longer)
        table[at] = p;
        table[at + 1] = p;
        table[at + 2] = p;
        table[at + 3] = p;
    }
}

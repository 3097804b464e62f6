// Rings of a skin: the dart that follows in a ring, whether a dart leads its ring, and how many rings there are.
ghost use Rattle.std.specs.Prelude.{◌≡◌, ℕ, ◌&&◌, nat_lt};
ghost use Rattle.mesh.specs.Mesh.{within};
ghost use Rattle.mesh.specs.Count.{leads, rings, Classes};
ghost use Rattle.skin.specs.Skins.{mesh};
ghost use Rattle.skin.specs.Counts.{along, counting, RingCounts};

use crate::leaders::leaders;
use crate::skin::Skin;

// A ring of a dart, and the way round it.
#[derive(Clone, Copy, PartialEq, Eq, Debug)]
pub enum Ring {
    // what repeated next reaches
    Face,
    // the same darts the other way round: what repeated prev reaches
    Back,
    // what repeated turn (next after twin) reaches
    Vertex,
}

// How many vertices, edges and faces a skin has.
#[derive(Clone, Copy, PartialEq, Eq, Debug)]
pub struct Counts {
    pub vertices: u32,
    pub edges: u32,
    pub faces: u32,
}

// The dart after h in its ring; none for a dart of n or more. (A ring is named in contracts, so it is a value and no closure.)
pub fn follow<S: Skin>(skin: &S, ring: Ring, h: u32) -> Option<u32>
    ensures { result ≡ within (S.Skin.n skin.now) h (along ring (mesh S.Skin skin.now) h) }
{
    match ring {
        Ring::Face => skin.next(h),
        Ring::Back => skin.prev(h),
        Ring::Vertex => skin.turn(h),
    }
}

// Whether h leads its ring, that is, is its smallest dart; a dart of n or more leads none.
// (With `orbit(..).all(|d| h <= d)` the rings of tables take a fifth longer to count. The steps are counted in k, by which the loop ends.)
pub fn leads_ring<S: Skin>(skin: &S, ring: Ring, h: u32) -> bool
    ensures { result ≡ (nat_lt h (S.Skin.n skin.now) && leads (along ring (mesh S.Skin skin.now)) h) }
{
    let Some(first) = follow(skin, ring, h) else {
        return false;
    };
    let mut c = first;
    let mut k = 1u32;
    while h < c {
        c = follow(skin, ring, c).unwrap();
        k += 1;
    }
    c == h
}

// How many rings the skin has: the number of darts that lead.
pub fn ring_count<S: Skin>(skin: &S, ring: Ring) -> u32
    ensures answer { result ≡ rings (along ring (mesh S.Skin skin.now)) (S.Skin.n skin.now) }
    ensures classes { Classes (S.Skin.n skin.now) (along ring (mesh S.Skin skin.now)) result }
{
    leaders(skin, ring).count() as u32
}

// Vertices, edges and faces: the vertex rings, half the darts, the face rings.
pub fn count<S: Skin>(skin: &S) -> Counts
    ensures answer { result ≡ counting (mesh S.Skin skin.now) }
    ensures rings { RingCounts (mesh S.Skin skin.now) result }
{
    Counts {
        vertices: ring_count(skin, Ring::Vertex),
        edges: skin.n() / 2,
        faces: ring_count(skin, Ring::Face),
    }
}

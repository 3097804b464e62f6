// The Quad, a layer over any skin.
ghost use Rattle.std.specs.Prelude.{◌≡◌, ◌≤◌};
ghost use Rattle.mesh.specs.Mesh.{quad};
ghost use Rattle.mesh.specs.Count.{QuadCounts};
ghost use Rattle.mesh.specs.Shapes.{SplitLaw};
ghost use Rattle.mesh.proofs.QuadLaws.{quad_lawful};
ghost use Rattle.skin.specs.Skins.{mesh};

use crate::skin::Skin;

// The darts that a skin may have at most under a Quad: a quarter of what a skin may have.
pub(crate) const QUARTER: u32 = 262_144;

// Four darts for each dart of the base; over a base of more than 262,144 darts none.
#[derive(Drop)]
pub struct Quad<S> {
    base: S,
}

impl<S: Skin> Quad<S> {
    pub fn new(base: S) -> Quad<S>
        ensures base { result.base ≡ base }
        ensures counts { S.Skin.n base ≤ 262144 → QuadCounts (mesh S.Skin base) }
        ensures split { S.Skin.n base ≤ 262144 → SplitLaw (mesh S.Skin base) }
    {
        Quad { base }
    }
}

impl<S: Skin> Skin for Quad<S> {
    ghost n = { λ q. (quad (mesh S.Skin q.base)).n };

    ghost next = { λ q. (quad (mesh S.Skin q.base)).next };

    ghost prev = { λ q. (quad (mesh S.Skin q.base)).prev };

    ghost twin = { λ q. (quad (mesh S.Skin q.base)).twin };

    ghost lawful = { λ q. quad_lawful (mesh S.Skin q.base) (S.Skin.lawful q.base) };

    fn n(&self) -> u32 {
        let n = self.base.n();
        if n <= QUARTER { 4 * n } else { 0 }
    }

    // (The three calls share the test of h and no case, so one function for all would only match twice.)
    fn next(&self, h: u32) -> Option<u32> {
        if h >= self.n() {
            return None;
        }
        let j = match h % 4 {
            0 => 1,
            1 => 2,
            2 => 3,
            _ => 0,
        };
        Some(4 * (h / 4) + j)
    }

    fn prev(&self, h: u32) -> Option<u32> {
        if h >= self.n() {
            return None;
        }
        let j = match h % 4 {
            0 => 3,
            1 => 0,
            2 => 1,
            _ => 2,
        };
        Some(4 * (h / 4) + j)
    }

    fn twin(&self, h: u32) -> Option<u32> {
        if h >= self.n() {
            return None;
        }
        let b = h / 4;
        match h % 4 {
            0 => Some(4 * self.base.turn(b)? + 3),
            1 => Some(4 * self.base.next(b)? + 2),
            2 => Some(4 * self.base.prev(b)? + 1),
            _ => Some(4 * self.base.unturn(b)?),
        }
    }
}

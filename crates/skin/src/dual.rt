// The Dual, a layer over any skin.
ghost use Rattle.std.specs.Prelude.{◌≡◌};
ghost use Rattle.mesh.specs.Mesh.{Same, dual};
ghost use Rattle.mesh.specs.Count.{DualCounts};
ghost use Rattle.mesh.proofs.DualLaws.{dual_lawful};
ghost use Rattle.skin.specs.Skins.{mesh};

use crate::skin::Skin;

// The same darts as the base, with faces and vertices in each other's place.
#[derive(Drop)]
pub struct Dual<S> {
    base: S,
}

impl<S: Skin> Dual<S> {
    pub fn new(base: S) -> Dual<S>
        ensures base { result.base ≡ base }
        ensures twice { Same (dual (dual (mesh S.Skin base))) (mesh S.Skin base) }
        ensures counts { DualCounts (mesh S.Skin base) }
    {
        Dual { base }
    }
}

impl<S: Skin> Skin for Dual<S> {
    ghost n = { λ d. (dual (mesh S.Skin d.base)).n };

    ghost next = { λ d. (dual (mesh S.Skin d.base)).next };

    ghost prev = { λ d. (dual (mesh S.Skin d.base)).prev };

    ghost twin = { λ d. (dual (mesh S.Skin d.base)).twin };

    ghost lawful = { λ d. dual_lawful (mesh S.Skin d.base) (S.Skin.lawful d.base) };

    fn n(&self) -> u32 {
        self.base.n()
    }

    fn next(&self, h: u32) -> Option<u32> {
        self.base.turn(h)
    }

    fn prev(&self, h: u32) -> Option<u32> {
        self.base.unturn(h)
    }

    fn twin(&self, h: u32) -> Option<u32> {
        self.base.twin(h)
    }
}

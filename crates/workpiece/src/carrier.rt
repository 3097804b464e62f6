// The carrier of a workpiece: the skin whose vertices carry the points.
ghost use Rattle.std.specs.Prelude.{◌≡◌, ℕ, ◌+◌, ◌<◌};
ghost use Rattle.mesh.specs.Mesh.{Mesh, Same, dual, flipped};
ghost use Rattle.mesh.specs.Count.{split};
ghost use Rattle.mesh.specs.Rungs.{level};
ghost use Rattle.workpiece.specs.Carriers.{carried, carried_lawful};

use skin::ladder::Ladder;
use skin::skin::Skin;

// A ladder over the skin opened, or the Dual of that: each split is a rung, and each split and each average turns the flag.
#[derive(Drop)]
pub struct Carrier<S> {
    ladder: Ladder<S>,
    dual: bool,
}

impl<S> Carrier<S> {
    // The skin itself, nothing split.
    pub(crate) fn over(base: S) -> Carrier<S>
        ensures base { result.ladder.base ≡ base }
        ensures splits { result.ladder.count ≡ 0 }
        ensures mesh { (m : Mesh) → flipped result.dual (level result.ladder.count result.ladder.bits m) ≡ m }
    {
        Carrier {
            ladder: Ladder::new(base),
            dual: false,
        }
    }

    // The skin that was opened, given back.
    pub(crate) fn into_base(self) -> S
        ensures { result ≡ self.ladder.base }
    {
        self.ladder.into_base()
    }

    // How many splits it has taken.
    pub(crate) fn splits(&self) -> u32
        ensures { result ≡ self.now.ladder.count }
    {
        self.ladder.rungs()
    }
}

impl<S: Skin> Carrier<S> {
    // Becomes the Dual of its Quad.
    pub(crate) fn to_split(&mut self)
        requires { self.old.ladder.count < 8 }
        ensures mesh { Same (carried S.Skin self.new) (split (carried S.Skin self.old)) }
        ensures splits { self.new.ladder.count ≡ self.old.ladder.count + 1 }
        ensures base { self.new.ladder.base ≡ self.old.ladder.base }
    {
        let _ = self.ladder.add(self.dual);
        self.dual = true;
    }

    // Becomes its Dual.
    pub(crate) fn to_dual(&mut self)
        ensures mesh { Same (carried S.Skin self.new) (dual (carried S.Skin self.old)) }
        ensures splits { self.new.ladder.count ≡ self.old.ladder.count }
        ensures base { self.new.ladder.base ≡ self.old.ladder.base }
    {
        self.dual = !self.dual;
    }
}

impl<S: Skin> Skin for Carrier<S> {
    ghost n = { λ c. (carried S.Skin c).n };

    ghost next = { λ c. (carried S.Skin c).next };

    ghost prev = { λ c. (carried S.Skin c).prev };

    ghost twin = { λ c. (carried S.Skin c).twin };

    ghost lawful = { carried_lawful S.Skin };

    fn n(&self) -> u32 {
        self.ladder.n()
    }

    fn next(&self, h: u32) -> Option<u32> {
        if self.dual {
            self.ladder.turn(h)
        } else {
            self.ladder.next(h)
        }
    }

    fn prev(&self, h: u32) -> Option<u32> {
        if self.dual {
            self.ladder.unturn(h)
        } else {
            self.ladder.prev(h)
        }
    }

    fn twin(&self, h: u32) -> Option<u32> {
        self.ladder.twin(h)
    }
}

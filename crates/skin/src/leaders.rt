// The darts that lead their rings, one after another.
ghost use Rattle.std.specs.Prelude.{◌≡◌};
ghost use Rattle.std.specs.Iterator.{YieldsFirst, item_count};
ghost use Rattle.mesh.specs.Count.{leaders, leaders_from, Leader};
ghost use Rattle.skin.specs.Skins.{mesh};
ghost use Rattle.skin.specs.Counts.{along};

use crate::count::{Ring, leads_ring};
use crate::skin::Skin;

// The darts that lead, in order; those below `from` have been given.
#[derive(Drop)]
pub struct Leading<'a, S: Skin> {
    skin: &'a S,
    ring: Ring,
    from: u32,
}

// The smallest darts of all rings of one kind, in order.
pub fn leaders<'a, S: Skin>(skin: &'a S, ring: Ring) -> Leading<'a, S>
    ensures { leaders_from (along result.ring (mesh S.Skin result.skin.now)) (S.Skin.n result.skin.now) result.from ≡ leaders (along ring (mesh S.Skin skin.now)) (S.Skin.n skin.now) }
{
    Leading {
        skin,
        ring,
        from: 0,
    }
}

impl<'a, S: Skin> Leading<'a, S> {
    // The dart that comes next.
    fn coming(&self) -> Option<u32>
        ensures { Leader (along self.now.ring (mesh S.Skin self.now.skin.now)) (S.Skin.n self.now.skin.now) self.now.from result }
    {
        (self.from..self.skin.n()).find(|h| leads_ring(self.skin, self.ring, *h))
    }
}

impl<'a, S: Skin> Iterator for Leading<'a, S> {
    type Item = u32;

    ghost next_gives = { YieldsFirst (λ s. leaders_from (along s.ring (mesh S.Skin s.skin.now)) (S.Skin.n s.skin.now) s.from) };

    ghost remaining = { item_count (λ s. leaders_from (along s.ring (mesh S.Skin s.skin.now)) (S.Skin.n s.skin.now) s.from) };

    fn next(&mut self) -> Option<u32> {
        let h = self.coming()?;
        self.from = h + 1;
        Some(h)
    }
}

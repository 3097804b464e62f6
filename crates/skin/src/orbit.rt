// The darts of a ring, one after another.
ghost use Rattle.std.specs.Prelude.{◌≡◌};
ghost use Rattle.std.specs.Iterator.{YieldsFirst, item_count};
ghost use Rattle.skin.specs.Skins.{mesh};
ghost use Rattle.skin.specs.Counts.{along};
ghost use Rattle.skin.specs.Orbits.{to_come, Returns, First, ring_of};

use crate::count::{Ring, follow};
use crate::skin::Skin;

// A walk along a ring that begins at the dart `first` and ends before it comes there again.
#[derive(Drop)]
pub struct Darts<'a, S: Skin> {
    skin: &'a S,
    ring: Ring,
    first: u32,
    // the dart that was given last
    last: Option<u32>,
    ghost returns: { Returns (S.Skin.n skin.now) (along ring (mesh S.Skin skin.now)) first last },
}

// The darts of a ring from h on, each once; none for a dart of n or more.
pub fn orbit<'a, S: Skin>(skin: &'a S, ring: Ring, h: u32) -> Darts<'a, S>
    ensures { to_come (S.Skin.n result.skin.now) (along result.ring (mesh S.Skin result.skin.now)) result.first result.last ≡ ring_of (S.Skin.n skin.now) (along ring (mesh S.Skin skin.now)) h }
{
    Darts {
        skin,
        ring,
        first: h,
        last: None,
    }
}

impl<'a, S: Skin> Darts<'a, S> {
    // The dart that comes next. (Built into its callers, as `next` is: else an average takes a seventh longer.)
    #[inline(always)]
    fn coming(&self) -> Option<u32>
        ensures { First (S.Skin.n self.now.skin.now) (along self.now.ring (mesh S.Skin self.now.skin.now)) self.now.first self.now.last result }
    {
        let first = self.first;
        match self.last {
            None => (first < self.skin.n()).then_some(first),
            Some(c) => follow(self.skin, self.ring, c).filter(|d| *d != first),
        }
    }
}

impl<'a, S: Skin> Iterator for Darts<'a, S> {
    type Item = u32;

    ghost next_gives = { YieldsFirst (λ s. to_come (S.Skin.n s.skin.now) (along s.ring (mesh S.Skin s.skin.now)) s.first s.last) };

    ghost remaining = { item_count (λ s. to_come (S.Skin.n s.skin.now) (along s.ring (mesh S.Skin s.skin.now)) s.first s.last) };

    #[inline(always)]
    fn next(&mut self) -> Option<u32> {
        let d = self.coming()?;
        self.last = Some(d);
        Some(d)
    }
}

// The calls of a table skin: the empty one, one of three tables, putting it in the place of another, and the interface.
ghost use Rattle.std.specs.Prelude.{◌≡◌, true, false, is_ok, MatchResult, Ok, Err};
ghost use Rattle.mesh.specs.Tables.{tables};
ghost use Rattle.skin.specs.Verdict.{verdict};
ghost use Rattle.mesh.specs.Mesh.{shown};
ghost use Rattle.skin.specs.Fit.{Fit};
ghost use Rattle.skin.specs.Meaning.{meaning, nothing};

use super::TableSkin;
use super::columns::Columns;
use crate::fault::Fault;
use crate::skin::Skin;
use mesh::DARTS;

impl<'a> TableSkin<'a> {
    // The skin of no darts.
    pub fn empty() -> TableSkin<'a>
        ensures { meaning result ≡ nothing }
    {
        TableSkin {
            columns: Columns {
                n: 0,
                next: &[],
                prev: &[],
                twin: &[],
            },
        }
    }

    // The skin of the first n places of three tables. It looks for more darts than a skin may have, then for places, then for darts at fault.
    pub fn new(
        n: u32,
        next: &'a [u32],
        prev: &'a [u32],
        twin: &'a [u32],
    ) -> Result<TableSkin<'a>, Fault>
        ensures answer { MatchResult result (λ s. (verdict n next.now prev.now twin.now ≡ Ok tt) × (meaning s ≡ tables n next.now prev.now twin.now)) (λ f. verdict n next.now prev.now twin.now ≡ Err f) }
        ensures exact { (is_ok result ≡ true → Fit n next.now prev.now twin.now) × (Fit n next.now prev.now twin.now → is_ok result ≡ true) }
    {
        if n > DARTS {
            return Err(Fault::TooMany);
        }
        let columns = Columns::new(n, next, prev, twin).ok_or(Fault::Short(n))?;
        match columns.first_fault() {
            Some(h) => Err(Fault::Broken(h)),
            None => Ok(TableSkin { columns }),
        }
    }

    // Puts the skin of n and the tables in the place of the one that is held, or refuses and leaves that as it was.
    pub fn adopt(
        &mut self,
        n: u32,
        next: &'a [u32],
        prev: &'a [u32],
        twin: &'a [u32],
    ) -> Result<(), Fault>
        ensures answer { result ≡ verdict n next.now prev.now twin.now }
        ensures exact { (is_ok result ≡ true → Fit n next.now prev.now twin.now) × (Fit n next.now prev.now twin.now → is_ok result ≡ true) }
        ensures taken { is_ok result ≡ true → meaning self.new ≡ tables n next.now prev.now twin.now }
        ensures declined { is_ok result ≡ false → self.new ≡ self.old }
    {
        *self = TableSkin::new(n, next, prev, twin)?;
        Ok(())
    }
}

impl<'a> Skin for TableSkin<'a> {
    ghost n = { λ t. (meaning t).n };

    ghost next = { λ t. (meaning t).next };

    ghost prev = { λ t. (meaning t).prev };

    ghost twin = { λ t. (meaning t).twin };

    ghost lawful = { λ t. shown t.lawful };

    fn n(&self) -> u32 {
        self.columns.n
    }

    fn next(&self, h: u32) -> Option<u32> {
        self.columns.next(h)
    }

    fn prev(&self, h: u32) -> Option<u32> {
        self.columns.prev(h)
    }

    fn twin(&self, h: u32) -> Option<u32> {
        self.columns.twin(h)
    }
}

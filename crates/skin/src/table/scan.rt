// The search of three tables for the smallest dart at fault.
ghost use Rattle.std.specs.Prelude.{◌≡◌, ℕ, ◌<◌, slice_index};
ghost use Rattle.mesh.specs.Tables.{outside, torn, overlong, long_ring, fault_of};
ghost use Rattle.mesh.specs.Smallest.{smallest};
ghost use Rattle.skin.specs.Counts.{along};
ghost use Rattle.skin.specs.Drawn.{drawn};

use super::columns::Columns;
use crate::count::Ring;

// The darts that a ring may have at most.
const RING: u32 = 64;

impl<'a> Columns<'a> {
    // The smallest dart at fault: by its entries, or else by the undoings, or else by its rings.
    pub fn first_fault(&self) -> Option<u32>
        ensures { result ≡ fault_of (drawn self.now) }
    {
        if let Some(h) = self.first_outside() {
            return Some(h);
        }
        let inner = Inner { columns: *self };
        // (no `or_else`: its closure would need a clause that says what it answers)
        if let Some(h) = inner.first_torn() {
            return Some(h);
        }
        inner.first_overlong()
    }

    // The smallest dart with an entry of n or more.
    fn first_outside(&self) -> Option<u32>
        ensures { result ≡ smallest self.now.n (outside (drawn self.now)) }
    {
        (0..self.n).find(|h| self.is_outside(*h))
    }

    // Whether an entry of h is n or more.
    fn is_outside(&self, h: u32) -> bool
        requires { h < self.now.n }
        ensures { result ≡ outside (drawn self.now) h }
    {
        let i = h as usize;
        self.next[i] >= self.n || self.prev[i] >= self.n || self.twin[i] >= self.n
    }
}

// Three tables of which each entry is a dart.
#[derive(Clone, Copy)]
struct Inner<'a> {
    columns: Columns<'a>,
    ghost inside: { (h : ℕ) → h < columns.n → (slice_index columns.next.now h < columns.n) × (slice_index columns.prev.now h < columns.n) × (slice_index columns.twin.now h < columns.n) },
}

// (That h is a dart is asked by each call that takes one: a type of darts would have to borrow the tables again.)
impl<'a> Inner<'a> {
    // The smallest dart where an undoing fails, or that is its own twin.
    fn first_torn(&self) -> Option<u32>
        ensures { result ≡ smallest self.now.columns.n (torn (drawn self.now.columns)) }
    {
        (0..self.columns.n).find(|h| self.is_torn(*h))
    }

    // Whether an undoing fails at h, or h is its own twin.
    fn is_torn(&self, h: u32) -> bool
        requires { h < self.now.columns.n }
        ensures { result ≡ torn (drawn self.now.columns) h }
    {
        let Columns {
            next,
            prev,
            twin,
            ..
        } = self.columns;
        let a = next[h as usize];
        let b = prev[h as usize];
        let t = twin[h as usize];
        prev[a as usize] != h || next[b as usize] != h || twin[t as usize] != h || t == h
    }

    // The smallest dart with a ring of more than 64 darts.
    fn first_overlong(&self) -> Option<u32>
        ensures { result ≡ smallest self.now.columns.n (overlong (drawn self.now.columns)) }
    {
        (0..self.columns.n).find(|h| self.is_overlong(*h))
    }

    // Whether a ring of h has more than 64 darts.
    fn is_overlong(&self, h: u32) -> bool
        requires { h < self.now.columns.n }
        ensures { result ≡ overlong (drawn self.now.columns) h }
    {
        self.is_open(Ring::Face, h) || self.is_open(Ring::Vertex, h)
    }

    // Whether 64 steps along a ring do not come back to h.
    fn is_open(&self, ring: Ring, h: u32) -> bool
        requires { h < self.now.columns.n }
        ensures { result ≡ long_ring (along ring (drawn self.now.columns)) h }
    {
        let mut c = self.step(ring, h);
        for _k in 1..RING {
            if c == h {
                break;
            }
            c = self.step(ring, c);
        }
        c != h
    }

    // The dart after h in its ring.
    fn step(&self, ring: Ring, h: u32) -> u32
        requires { h < self.now.columns.n }
        ensures step { result ≡ along ring (drawn self.now.columns) h }
        ensures below { result < self.now.columns.n }
    {
        let Columns {
            next,
            prev,
            twin,
            ..
        } = self.columns;
        match ring {
            Ring::Face => next[h as usize],
            Ring::Back => prev[h as usize],
            Ring::Vertex => next[twin[h as usize] as usize],
        }
    }
}

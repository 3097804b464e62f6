// Three lent tables. (No specification that this file cites may name their type.)
ghost use Rattle.std.specs.Prelude.{◌≡◌, ◌≤◌, length, true, false, MatchOption, slice_index};
ghost use Rattle.mesh.specs.Mesh.{within};
ghost use Rattle.skin.specs.Verdict.{scant};

// Tables of n places or more. (They are not cut to n places: a table skin means the whole tables, as adopt promises.)
#[derive(Clone, Copy)]
pub struct Columns<'a> {
    pub n: u32,
    pub next: &'a [u32],
    pub prev: &'a [u32],
    pub twin: &'a [u32],
    ghost long: { (n ≤ length next.now) × (n ≤ length prev.now) × (n ≤ length twin.now) },
}

impl<'a> Columns<'a> {
    // None if a table has fewer than n places.
    pub fn new(n: u32, next: &'a [u32], prev: &'a [u32], twin: &'a [u32]) -> Option<Columns<'a>>
        ensures { MatchOption result (scant n next.now prev.now twin.now ≡ true) (λ c. (scant n next.now prev.now twin.now ≡ false) × (c.n ≡ n) × (c.next ≡ next.entry) × (c.prev ≡ prev.entry) × (c.twin ≡ twin.entry)) }
    {
        let places = n as usize;
        if next.len() < places || prev.len() < places || twin.len() < places {
            return None;
        }
        Some(Columns {
            n,
            next,
            prev,
            twin,
        })
    }

    // What one of the tables says of dart h; none for a dart of n or more.
    fn entry(&self, table: &[u32], h: u32) -> Option<u32>
        requires { self.now.n ≤ length table.now }
        ensures { result ≡ within self.now.n h (slice_index table.now h) }
    {
        if h < self.n {
            Some(table[h as usize])
        } else {
            None
        }
    }

    pub fn next(&self, h: u32) -> Option<u32>
        ensures { result ≡ within self.now.n h (slice_index self.now.next.now h) }
    {
        self.entry(self.next, h)
    }

    pub fn prev(&self, h: u32) -> Option<u32>
        ensures { result ≡ within self.now.n h (slice_index self.now.prev.now h) }
    {
        self.entry(self.prev, h)
    }

    pub fn twin(&self, h: u32) -> Option<u32>
        ensures { result ≡ within self.now.n h (slice_index self.now.twin.now h) }
    {
        self.entry(self.twin, h)
    }
}

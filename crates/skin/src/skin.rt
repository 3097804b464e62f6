// The interface of a skin: what it means, the laws that it keeps, and the four calls that tell its meaning.
ghost use Rattle.std.specs.Prelude.{◌≡◌, ℕ};
ghost use Rattle.mesh.specs.Mesh.{Lawful, within};

// A closed mesh of n darts, numbered from 0. A dart is one side of an edge, walked from its start vertex along its face.
pub trait Skin {
    // how many darts there are
    ghost n: { Self → ℕ };

    // the following dart of the face
    ghost next: { Self → ℕ → ℕ };

    // the dart before in the face
    ghost prev: { Self → ℕ → ℕ };

    // the other side of the edge
    ghost twin: { Self → ℕ → ℕ };

    // what an implementation has to show of its meaning
    ghost lawful: { (s : Self) → Lawful (record { n = n s; next = next s; prev = prev s; twin = twin s }) };

    fn n(&self) -> u32
        ensures { result ≡ n self.now };

    // None for a dart of n or more, as prev and twin.
    fn next(&self, h: u32) -> Option<u32>
        ensures { result ≡ within (n self.now) h (next self.now h) };

    fn prev(&self, h: u32) -> Option<u32>
        ensures { result ≡ within (n self.now) h (prev self.now h) };

    fn twin(&self, h: u32) -> Option<u32>
        ensures { result ≡ within (n self.now) h (twin self.now h) };

    // The dart after h round its start vertex: next of twin.
    fn turn(&self, h: u32) -> Option<u32>
        ensures { result ≡ within (n self.now) h (next self.now (twin self.now h)) }
    {
        let t = self.twin(h)?;
        self.next(t)
    }

    // The dart before h round its start vertex: twin of prev.
    fn unturn(&self, h: u32) -> Option<u32>
        ensures { result ≡ within (n self.now) h (twin self.now (prev self.now h)) }
    {
        let p = self.prev(h)?;
        self.twin(p)
    }
}

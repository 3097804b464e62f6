// The Ladder, a layer over any skin: one Quad for each of its bits, in order, taken of the Dual where the bit is 1.
ghost use Rattle.std.specs.Prelude.{◌≡◌, ℕ, ◌+◌, ◌<◌, ◌≤◌, Bool, false, is_ok, if◌then◌else◌, Ok, Err, nat_lt};
ghost use Rattle.mesh.specs.Mesh.{Mesh, within};
ghost use Rattle.skin.specs.declared.fault.Fault.TheVariants.{Rungs};
ghost use Rattle.mesh.specs.Rungs.{level, rung};
ghost use Rattle.skin.specs.Skins.{mesh};
ghost use Rattle.skin.specs.Ways.{act, way_across, way_below, way_digit, way_stays, way_under};
ghost use Rattle.mesh.proofs.RungLaws.{level_lawful};

use crate::fault::Fault;
use crate::quad::QUARTER;
use crate::skin::Skin;

// A way to go on from a dart. A way at a Quad or a Dual comes down to one way at the skin below it, so a ladder asks its base once.
#[derive(Clone, Copy)]
enum Way {
    // to the dart itself
    Stay,
    Next,
    Prev,
    Twin,
    // next of twin
    Turn,
    // twin of prev
    Unturn,
}

impl Way {
    // Whether it leads nowhere else.
    fn stays(self) -> bool
        ensures { result ≡ way_stays self }
    {
        matches!(self, Way::Stay)
    }

    // The way below a Dual.
    fn across(self) -> Way
        ensures { result ≡ way_across self }
    {
        match self {
            Way::Stay => Way::Stay,
            Way::Next => Way::Turn,
            Way::Prev => Way::Unturn,
            Way::Twin => Way::Twin,
            Way::Turn => Way::Next,
            Way::Unturn => Way::Prev,
        }
    }

    // The way from dart h below a Quad, for one from dart 4h + j. (Unturn has the cases of turn, each one later; two tables show that better
    // than a sum modulo 4.)
    fn below(self, j: u32) -> Way
        ensures { result ≡ way_below self j }
    {
        match self {
            Way::Stay | Way::Next | Way::Prev => Way::Stay,
            Way::Twin | Way::Turn => match j {
                0 => Way::Turn,
                1 => Way::Next,
                2 => Way::Prev,
                _ => Way::Unturn,
            },
            Way::Unturn => match j {
                0 => Way::Unturn,
                1 => Way::Turn,
                2 => Way::Next,
                _ => Way::Prev,
            },
        }
    }

    // The way below a Quad, and below the Dual too where the bit is 1.
    fn under(self, bit: bool, j: u32) -> Way
        ensures { result ≡ way_under bit (way_below self j) }
    {
        let w = self.below(j);
        if bit { w.across() } else { w }
    }

    // Which of the four darts of a Quad it leads to from dart 4h + j.
    fn digit(self, j: u32) -> u32
        requires { j < 4 }
        ensures { result ≡ way_digit self j }
    {
        match self {
            Way::Stay => j,
            Way::Next => (j + 1) % 4,
            Way::Prev => (j + 3) % 4,
            Way::Twin => (7 - j) % 4,
            Way::Turn | Way::Unturn => (4 - j) % 4,
        }
    }
}

// The bits that a ladder may have at most.
pub const RUNGS: usize = 8;

// The base, and the first `count` of the bits. It stores no darts.
// (The meaning of a workpiece reads the bits by place, up to their count: `level count bits`. A list of bits would be no plainer there.)
#[derive(Drop)]
pub struct Ladder<S> {
    base: S,
    bits: [bool; 8],
    count: usize,
    ghost few: { count ≤ 8 },
}

impl<S> Ladder<S> {
    // The base alone.
    pub fn new(base: S) -> Ladder<S>
        ensures base { result.base ≡ base }
        ensures count { result.count ≡ 0 }
        ensures mesh { (m : Mesh) → level result.count result.bits m ≡ m }
    {
        Ladder {
            base,
            bits: [false; 8],
            count: 0,
        }
    }

    // One more Quad at the top, of the Dual where the bit is 1.
    pub fn add(&mut self, bit: bool) -> Result<(), Fault>
        ensures answer { result ≡ (if nat_lt self.old.count 8 then Ok tt else Err Rungs) }
        ensures declined { is_ok result ≡ false → self.new ≡ self.old }
        ensures base { self.new.base ≡ self.old.base }
        ensures count { self.new.count ≡ (if is_ok result then self.old.count + 1 else self.old.count) }
        ensures mesh { (m : Mesh) → level self.new.count self.new.bits m ≡ (if is_ok result then rung bit (level self.old.count self.old.bits m) else level self.old.count self.old.bits m) }
    {
        if self.count >= RUNGS {
            return Err(Fault::Rungs);
        }
        self.bits[self.count] = bit;
        self.count += 1;
        Ok(())
    }

    // The base, given back.
    pub fn into_base(self) -> S
        ensures { result ≡ self.base }
    {
        self.base
    }

    // How many bits it has.
    pub fn rungs(&self) -> u32
        ensures { result ≡ self.now.count }
    {
        self.count as u32
    }
}

impl<S: Skin> Ladder<S> {
    // How many darts the top has.
    fn size(&self) -> u32
        ensures { result ≡ (level self.now.count self.now.bits (mesh S.Skin self.now.base)).n }
    {
        let mut n = self.base.n();
        for _i in 0..self.count {
            n = if n <= QUARTER { 4 * n } else { 0 };
        }
        n
    }

    // What the base answers of a way. (A way is computed with on the way down, so it is a value and no closure.)
    fn foot(&self, way: Way, h: u32) -> Option<u32>
        ensures { result ≡ within (S.Skin.n self.now.base) h (act (mesh S.Skin self.now.base) way h) }
    {
        match way {
            Way::Stay => { if h < self.base.n() { Some(h) } else { None } }
            Way::Next => self.base.next(h),
            Way::Prev => self.base.prev(h),
            Way::Twin => self.base.twin(h),
            Way::Turn => self.base.turn(h),
            Way::Unturn => self.base.unturn(h),
        }
    }

    // What the top answers of a way: down the bits as far as the way leads, and up again.
    // (Two loops: by recursion over the bits, counting the rings of a ladder took a quarter longer.)
    fn go(&self, way: Way, h: u32) -> Option<u32>
        ensures { result ≡ within (level self.now.count self.now.bits (mesh S.Skin self.now.base)).n h (act (level self.now.count self.now.bits (mesh S.Skin self.now.base)) way h) }
    {
        if h >= self.size() {
            return None;
        }
        let mut digits = [0u32; RUNGS];
        let mut w = way;
        let mut d = h;
        let mut i = self.count;
        'down: while i > 0 && !w.stays() {
            i -= 1;
            let j = d % 4;
            digits[i] = w.digit(j);
            w = w.under(self.bits[i], j);
            d = d / 4;
        }
        let mut x = if i == 0 { self.foot(w, d)? } else { d };
        for k in i..self.count {
            x = 4 * x + digits[k];
        }
        Some(x)
    }
}

impl<S: Skin> Skin for Ladder<S> {
    ghost n = { λ l. (level l.count l.bits (mesh S.Skin l.base)).n };

    ghost next = { λ l. (level l.count l.bits (mesh S.Skin l.base)).next };

    ghost prev = { λ l. (level l.count l.bits (mesh S.Skin l.base)).prev };

    ghost twin = { λ l. (level l.count l.bits (mesh S.Skin l.base)).twin };

    ghost lawful = { λ l. level_lawful l.count l.bits (mesh S.Skin l.base) (S.Skin.lawful l.base) };

    fn n(&self) -> u32 {
        self.size()
    }

    fn next(&self, h: u32) -> Option<u32> {
        self.go(Way::Next, h)
    }

    fn prev(&self, h: u32) -> Option<u32> {
        self.go(Way::Prev, h)
    }

    fn twin(&self, h: u32) -> Option<u32> {
        self.go(Way::Twin, h)
    }

    fn turn(&self, h: u32) -> Option<u32> {
        self.go(Way::Turn, h)
    }

    fn unturn(&self, h: u32) -> Option<u32> {
        self.go(Way::Unturn, h)
    }
}

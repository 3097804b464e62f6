// The torus, a skin with no tables.
ghost use Rattle.std.specs.Prelude.{◌≡◌, ℕ, ◌+◌, ◌*◌, ◌<◌, ◌≤◌, Some, None, MatchResult};
ghost use Rattle.mesh.specs.Cells.{torus as grid, after as following, before as preceding, dart as place, across};
ghost use Rattle.mesh.proofs.Grid.{torus_lawful};
ghost use Rattle.skin.specs.Sides.{side_fault};

use crate::fault::{Fault, Side};
use crate::skin::Skin;

// The longest side of a torus.
pub const SIDE: u32 = 512;

// A torus of w by h quads, wrapped both ways. Cell (x, y) has the darts 4(y·w + x) + j, with j from 0 to 3 round the cell.
#[derive(Clone, Copy)]
pub struct Torus {
    w: u32,
    h: u32,
    ghost wide: { (1 ≤ w) × (w ≤ 512) },
    ghost high: { (1 ≤ h) × (h ≤ 512) },
}

impl Torus {
    // Sides from 1 to 512; the width is looked at first.
    pub fn new(w: u32, h: u32) -> Result<Torus, Fault>
        ensures { MatchResult result (λ t. (side_fault w h ≡ None) × (t.w ≡ w) × (t.h ≡ h)) (λ f. side_fault w h ≡ Some f) }
    {
        if w < 1 || w > SIDE {
            return Err(Fault::Side(Side::Width));
        }
        if h < 1 || h > SIDE {
            return Err(Fault::Side(Side::Height));
        }
        Ok(Torus { w, h })
    }

    // How many darts there are.
    fn darts(&self) -> u32
        ensures { (result ≡ 4 * (self.now.w * self.now.h)) × (result ≤ 1048576) }
    {
        4 * (self.w * self.h)
    }
}

impl Skin for Torus {
    ghost n = { λ t. (grid t.w t.h).n };

    ghost next = { λ t. (grid t.w t.h).next };

    ghost prev = { λ t. (grid t.w t.h).prev };

    ghost twin = { λ t. (grid t.w t.h).twin };

    ghost lawful = { λ t. torus_lawful t.w t.h t.wide.0 t.wide.1 t.high.1 };

    fn n(&self) -> u32 {
        self.darts()
    }

    fn next(&self, d: u32) -> Option<u32> {
        (d < self.darts()).then(|| 4 * (d / 4) + after(4, d % 4))
    }

    fn prev(&self, d: u32) -> Option<u32> {
        (d < self.darts()).then(|| 4 * (d / 4) + before(4, d % 4))
    }

    fn twin(&self, d: u32) -> Option<u32> {
        (d < self.darts()).then(|| self.at((d / 4) % self.w, (d / 4) / self.w).opposite(d % 4))
    }
}

// The number after i of the k that are wrapped.
fn after(k: u32, i: u32) -> u32
    requires { i < k }
    ensures { (result ≡ following k i) × (result < k) }
{
    if i + 1 == k { 0 } else { i + 1 }
}

// The number before i of the k that are wrapped.
fn before(k: u32, i: u32) -> u32
    requires { i < k }
    ensures { (result ≡ preceding k i) × (result < k) }
{
    if i == 0 { k - 1 } else { i - 1 }
}

// One quad of a torus.
#[derive(Clone, Copy)]
struct Cell {
    torus: Torus,
    x: u32,
    y: u32,
    ghost inside: { (x < torus.w) × (y < torus.h) },
}

impl Torus {
    // The cell in the column x and the row y.
    fn at(self, x: u32, y: u32) -> Cell
        requires column { x < self.w }
        requires row { y < self.h }
        ensures { (result.torus ≡ self) × (result.x ≡ x) × (result.y ≡ y) }
    {
        Cell { torus: self, x, y }
    }
}

impl Cell {
    // Dart j.
    fn dart(self, j: u32) -> u32
        requires { j < 4 }
        ensures { result ≡ place self.torus.w self.x self.y j }
    {
        4 * (self.y * self.torus.w + self.x) + j
    }

    // The twin of dart j.
    fn opposite(self, j: u32) -> u32
        ensures { result ≡ across self.torus.w self.torus.h self.x self.y j }
    {
        let Cell { torus, x, y } = self;
        match j {
            0 => torus.at(x, before(torus.h, y)).dart(2),
            1 => torus.at(after(torus.w, x), y).dart(3),
            2 => torus.at(x, after(torus.h, y)).dart(0),
            _ => torus.at(before(torus.w, x), y).dart(1),
        }
    }
}

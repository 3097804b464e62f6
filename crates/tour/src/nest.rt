// Quads and Duals nested by hand, beside a skin that should mean the same.
use skin::alike::alike;
use skin::dual::Dual;
use skin::quad::Quad;
use skin::skin::Skin;

// Two rungs over a base, of the bits 0 and 1.
fn two_rungs<S: Skin>(base: S) -> Quad<Dual<Quad<S>>> {
    Quad::new(Dual::new(Quad::new(base)))
}

// Whether a skin means the same as eight rungs over the base.
pub fn eight_rungs<L: Skin, S: Skin + Drop>(ladder: &L, base: S) -> bool {
    let nested = two_rungs(two_rungs(two_rungs(two_rungs(base))));
    alike(ladder, &nested)
}

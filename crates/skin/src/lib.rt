// Skins: closed meshes of darts behind one interface, the skins that stand on their own, the layers over them, and the counting of rings.
#![tactic(auto)]

pub mod alike;
pub mod count;
pub mod dual;
pub mod fault;
pub mod ladder;
pub mod leaders;
pub mod orbit;
pub mod quad;
pub mod skin;
pub mod table;
pub mod torus;

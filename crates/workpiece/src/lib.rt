// A workpiece: a skin that is split and averaged in place, with a table of points that stays true to its drawing.
#![tactic(auto)]

ghost use Rattle.workpiece.specs.Figures.{Figures};

pub mod calls;
pub mod carrier;
pub mod fault;
pub mod piece;
mod rings;

// The torus of 256 by 256 quads may split; that of 256 by 512 has too many darts for it.
pub fn figures_stand()
    ensures { Figures }
{}

// Kinds of points: what a table of points holds, how points are summed, and their means.
#![tactic(auto)]

ghost use Rattle.point.specs.Figures.{Figures};

pub mod fault;
pub mod kind;
pub mod range;
pub mod row;
pub mod solid;
pub mod tally;

// Worked figures of both kinds, as one list.
pub fn figures_stand()
    ensures { Figures }
{}

// Writing sheets: a skin and the points of its darts as text.
#![tactic(auto)]

pub mod fault;
mod lines;
mod listing;
mod page;
pub mod piece;
mod rings;
pub mod write;

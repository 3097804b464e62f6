// From a sheet to a skin: closing numbers its darts and fills the dart tables, spreading gives each dart its point.
#![tactic(auto)]

mod edges;
mod faces;
pub mod fault;
pub mod held;
mod judge;
mod parts;
pub mod points;
mod sorting;
pub mod tables;
mod vertices;

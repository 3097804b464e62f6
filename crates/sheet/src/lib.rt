// Sheets: their text, and how it is read into tables.
#![tactic(auto)]

pub mod fault;
mod fill;
mod item;
pub mod job;
mod judge;
mod number;
pub mod read;
mod reader;
pub mod record;
pub mod tables;
mod token;

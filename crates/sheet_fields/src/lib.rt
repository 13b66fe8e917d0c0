// What is kept of a sheet that is half read, and one byte in its numbers and lists.
#![tactic(auto)]

pub mod fields;
pub mod state;

// What the programs of worked cases share: the sets that they speak of, and the lines that they print.
#![tactic(auto)]

pub mod lines;
pub mod sets;

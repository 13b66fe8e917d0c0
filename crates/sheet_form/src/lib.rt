// What a sheet is: its text, the place of a fault of form, and the set that it says. The reader and the writer rest on it.
#![tactic(auto)]

// How long a sheet may be.
pub const LONGEST: usize = 1024;

// A table as a file: its header, the writer and the opener.
#![tactic(auto)]

mod headers;
pub mod opener;
pub mod writer;

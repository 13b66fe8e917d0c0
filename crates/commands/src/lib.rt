// A line of bytes read to a command of docs/REPLAY.md, or found mangled.
#![tactic(auto)]

pub mod buffers;
mod forms;
pub mod hexadecimal;
pub mod kinds;
pub mod lines;
mod numbers;
mod texts;

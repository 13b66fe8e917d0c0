// The kinds of command: the rows of the page in their order, from 0.
// Numbers, and no enum: `desk::carry_out` and `desk_buffers::carry_out` promise what is left at every one.
pub const RESET: usize = 0;

pub const FILL: usize = 1;

pub const CUT: usize = 2;

pub const POKE: usize = 3;

pub const SHOW: usize = 4;

// 5 is `sum`: no code asks for it, as it is the last command on a buffer.
pub const TEXT: usize = 6;

pub const READ: usize = 7;

pub const NEXT: usize = 8;

pub const PAST: usize = 9;

pub const SHEET: usize = 10;

pub const NAME: usize = 11;

pub const COUNT: usize = 12;

pub const KIND: usize = 13;

pub const DEADLINE: usize = 14;

pub const RUNS: usize = 15;

pub const GAPS: usize = 16;

pub const SHOW_SET: usize = 17;

pub const TEST_SET: usize = 18;

pub const BUILD: usize = 19;

pub const TEST_TABLE: usize = 20;

pub const WRITE: usize = 21;

pub const OPEN: usize = 22;

pub const PRINT: usize = 23;

pub const START: usize = 24;

pub const ASK: usize = 25;

pub const REPORT: usize = 26;

pub const SHOW_RUN: usize = 27;

pub const AGE: usize = 28;

pub const JOB: usize = 29;

pub const NO_JOB: usize = 30;

pub const ARRIVED: usize = 31;

pub const FINISHED: usize = 32;

pub const REPLACED: usize = 33;

pub const TICKS: usize = 34;

pub const SUBSTITUTIONS: usize = 35;

pub const READING: usize = 36;

pub const AWAITED: usize = 37;

pub const NOTHING_AWAITED: usize = 38;

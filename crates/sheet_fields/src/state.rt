// What is kept of a sheet that is half read.
ghost use Rattle.std.specs.Prelude.{◌≡◌};
ghost use Rattle.sheet_fields.specs.State.{blank_of, moved};

// Where the next byte stands: in a word, in the name, at a line's start, in a field; or a byte before it was a fault.
// Numbers, and no enum: `fields::in_field` promises an answer at every one.
pub const SET_WORD: u8 = 0;

pub const HARD_WORD: u8 = 1;

pub const SOFT_WORD: u8 = 2;

pub const NAME: u8 = 3;

pub const LINE: u8 = 4;

pub const DEADLINE: u8 = 5;

pub const RUNS: u8 = 6;

pub const GAPS: u8 = 7;

pub const FAULT: u8 = 8;

// What is kept of the bytes read, beside the name and the tasks. `at`: how many bytes of the word or the name, or the number begun, 0
// where none is. `last` and `bits`: the list begun. `count`: the tasks that have ended.
#[derive(Clone, Copy, Debug, PartialEq, Eq)]
pub struct State {
    pub mode: u8,
    pub at: u8,
    pub last: u8,
    pub bits: u16,
    pub kind: u8,
    pub deadline: u8,
    pub runs: u16,
    pub count: u8,
}

// Nothing kept, at a mode.
pub fn blank(mode: u8) -> State
    ensures { result ≡ blank_of mode }
{
    State {
        mode,
        at: 0,
        last: 0,
        bits: 0,
        kind: 0,
        deadline: 0,
        runs: 0,
        count: 0,
    }
}

// The same kept, at another mode and place. Each field is named, since a copy that is then changed is slower.
pub fn move_to(s: State, mode: u8, at: u8) -> State
    ensures { result ≡ moved s mode at }
{
    State {
        mode,
        at,
        last: s.last,
        bits: s.bits,
        kind: s.kind,
        deadline: s.deadline,
        runs: s.runs,
        count: s.count,
    }
}

// One byte of a sheet, by the mode that the bytes before it led to.
ghost use Rattle.std.specs.Prelude.{◌≡◌, ◌<◌, length, get_or};
ghost use Rattle.sheet_scan.specs.Steps.{word_at, word_of, name_of, line_start, step_of, whole_at};

use sheet_fields::fields::in_field;
use sheet_fields::state;
use sheet_fields::state::State;
use tasks::sets;

// The fixed word that a mode names.
#[tactic(auto, unfolding(crate::specs::Steps::word_at))]
fn word(mode: u8) -> &'static [u8]
    ensures { result.now ≡ word_at mode }
{
    match mode {
        state::SET_WORD => b"set ",
        state::HARD_WORD => b"hard ",
        _ => b"soft ",
    }
}

// One byte in a fixed word. No state that is reached stands past its word's end: the first test only lets the contract hold for every state.
#[tactic(auto, unfolding(crate::specs::Steps::word_of))]
fn in_word(s: State, b: u8) -> State
    ensures { result ≡ word_of s b }
{
    let word = word(s.mode);
    let at = usize::from(s.at);
    if word.len() <= at || b != word[at] {
        return state::blank(state::FAULT);
    }
    if at + 1 < word.len() {
        return state::move_to(s, s.mode, s.at + 1);
    }
    if s.mode == state::SET_WORD {
        return state::move_to(s, state::NAME, 0);
    }
    State {
        mode: state::DEADLINE,
        at: 0,
        last: s.last,
        bits: s.bits,
        kind: if s.mode == state::HARD_WORD {
            1
        } else {
            s.kind
        },
        deadline: s.deadline,
        runs: s.runs,
        count: s.count,
    }
}

// One byte in the name.
#[tactic(auto, unfolding(crate::specs::Steps::name_of))]
fn in_name(s: State, b: u8) -> State
    ensures { result ≡ name_of s b }
{
    if sets::name_byte(b) {
        if s.at < 16 {
            return state::move_to(s, s.mode, s.at + 1);
        }
        return state::blank(state::FAULT);
    }
    if 0 < s.at && b == b'\n' {
        return state::move_to(s, state::LINE, 0);
    }
    state::blank(state::FAULT)
}

// One byte at the start of a line.
#[tactic(auto, unfolding(crate::specs::Steps::line_start))]
fn at_line(s: State, b: u8) -> State
    ensures { result ≡ line_start s b }
{
    if 7 <= s.count {
        return state::blank(state::FAULT);
    }
    match b {
        b'h' => state::move_to(s, state::HARD_WORD, 1),
        b's' => state::move_to(s, state::SOFT_WORD, 1),
        _ => state::blank(state::FAULT),
    }
}

// One byte. A pass stops at a fault, so the last answer only lets the contract hold for every state.
#[tactic(auto, unfolding(crate::specs::Steps::step_of))]
pub(crate) fn step(s: State, b: u8) -> State
    ensures { result ≡ step_of s b }
{
    match s.mode {
        state::SET_WORD..=state::SOFT_WORD => in_word(s, b),
        state::NAME => in_name(s, b),
        state::LINE => at_line(s, b),
        state::DEADLINE..=state::GAPS => in_field(s, b),
        _ => state::blank(state::FAULT),
    }
}

// Whether the bytes that led to a state are a whole sheet's: a line could begin, and a task has ended.
pub(crate) fn is_whole(s: State) -> bool
    ensures { result ≡ whole_at s }
{
    s.mode == state::LINE && 0 < s.count
}

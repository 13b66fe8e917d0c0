// One byte in a number or a list.
ghost use Rattle.std.specs.Prelude.{◌≡◌, nat_lt};
ghost use Rattle.std.specs.Bool.{then_some};
ghost use Rattle.sheet_form.specs.Machine.{digit};
ghost use Rattle.sheet_fields.specs.Fields.{push_of, ender_of, ended_task, begun, closed_of, comma_of, field_of};

use crate::state;
use crate::state::State;
use tasks::sets::Task;

// A list as it is read: its last number and its bits; 17 and no bits once it does not rise. No Option: a `State` keeps the two as they
// are, and `in_field` answers for every state.
#[derive(Clone, Copy, Debug, PartialEq, Eq)]
pub struct Kept {
    pub last: u8,
    pub bits: u16,
}

const BROKEN: Kept = Kept { last: 17, bits: 0 };

// No list begun.
const NO_LIST: Kept = Kept { last: 0, bits: 0 };

// The number v with one digit more; none where the byte is no digit or the number leaves 1 to 16.
#[tactic(auto, unfolding(sheet_form::specs::Machine::digit))]
fn more_digit(v: u8, b: u8) -> Option<u8>
    ensures { result ≡ then_some (nat_lt 0 (digit v b)) (digit v b) }
{
    if b < b'0' || b > b'9' {
        return None;
    }
    let n = 10 * u32::from(v) + u32::from(b - b'0');
    match n {
        1..=16 => Some(n as u8),
        _ => None,
    }
}

// One number more on a list, kept while the list rises. No number above 16 is read, and bits that rise do not wrap: the second test
// and the wrapping sum only let the contract hold for all that can be passed.
#[tactic(auto, unfolding(crate::specs::Fields::push_of))]
fn push(last: u8, bits: u16, v: u8) -> Kept
    ensures { result ≡ push_of last bits v }
{
    if v <= last || 16 < v {
        return BROKEN;
    }
    Kept {
        last: v,
        bits: bits.wrapping_add(1u16 << (v - 1)),
    }
}

// The byte that ends a field.
#[tactic(auto, unfolding(crate::specs::Fields::ender_of))]
fn ender(mode: u8) -> u8
    ensures { result ≡ ender_of mode }
{
    if mode == state::GAPS { b'\n' } else { b' ' }
}

// The task that ends with the number read, the last of its gaps.
pub fn ended_task(s: State) -> Task
    ensures { result ≡ ended_task s }
{
    let k = push(s.last, s.bits, s.at);
    Task {
        kind: s.kind,
        deadline: s.deadline,
        runs: s.runs,
        gaps: k.bits,
    }
}

// A number begins: the list before it in its field, the task's deadline and run times.
fn begin(s: State, mode: u8, list: Kept, deadline: u8, runs: u16) -> State
    ensures { result ≡ begun s mode list deadline runs }
{
    State {
        mode,
        at: 0,
        last: list.last,
        bits: list.bits,
        kind: s.kind,
        deadline,
        runs,
        count: s.count,
    }
}

// The number read ends a field; with the gaps a task ends. No line begins after the seventh task, so the test of the count only lets
// the contract hold for every state.
#[tactic(auto, unfolding(crate::specs::Fields::closed_of))]
fn closed(s: State) -> State
    ensures { result ≡ closed_of s }
{
    match s.mode {
        state::DEADLINE => {
            let list = Kept {
                last: s.last,
                bits: s.bits,
            };
            begin(s, state::RUNS, list, s.at, s.runs)
        }
        state::RUNS => {
            let runs = push(s.last, s.bits, s.at);
            begin(s, state::GAPS, NO_LIST, s.deadline, runs.bits)
        }
        _ if s.count < 7 => State {
            mode: state::LINE,
            at: 0,
            last: 0,
            bits: 0,
            kind: 0,
            deadline: 0,
            runs: 0,
            count: s.count + 1,
        },
        _ => state::blank(state::FAULT),
    }
}

// A comma after the number read.
fn comma(s: State) -> State
    ensures { result ≡ comma_of s }
{
    let list = push(s.last, s.bits, s.at);
    begin(s, s.mode, list, s.deadline, s.runs)
}

// One byte in a number or a list.
#[tactic(auto, unfolding(crate::specs::Fields::field_of))]
pub fn in_field(s: State, b: u8) -> State
    ensures { result ≡ field_of s b }
{
    if let Some(n) = more_digit(s.at, b) {
        return state::move_to(s, s.mode, n);
    }
    if s.at == 0 {
        return state::blank(state::FAULT);
    }
    if b == ender(s.mode) {
        return closed(s);
    }
    if state::DEADLINE < s.mode && b == b',' {
        return comma(s);
    }
    state::blank(state::FAULT)
}

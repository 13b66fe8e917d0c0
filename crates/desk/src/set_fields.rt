// A set with one field set.
ghost use Rattle.std.specs.Prelude.{◌≡◌, ◌%◌};
ghost use Rattle.desk.specs.Fields.{task_with, task_set, name_set, count_set, set_with};

use commands::{hexadecimal, kinds};
use desk_buffers::bytes;
use tasks::sets::{Set, Task};

// 16 bits of a number that a command has from 0 to 65,535.
fn half(n: u32) -> u16
    ensures { result ≡ n % 65536 }
{
    (n % 65536) as u16
}

// The task record with the field that the kind of the command names.
#[tactic(auto, unfolding(crate::specs::Fields::task_with))]
fn with_field(t: Task, kind: usize, v: u32) -> Task
    ensures { result ≡ task_with kind v t }
{
    match kind {
        kinds::KIND => Task {
            kind: bytes::byte(v),
            ..t
        },
        kinds::DEADLINE => Task {
            deadline: bytes::byte(v),
            ..t
        },
        kinds::RUNS => Task { runs: half(v), ..t },
        kinds::GAPS => Task { gaps: half(v), ..t },
        _ => t,
    }
}

// The set with a field of task i's record. No one function with `run_fields::with_place`: that sets two arrays of a run, by another definition.
#[tactic(auto, unfolding(crate::specs::Fields::task_set))]
fn with_task(s: Set, kind: usize, i: u32, v: u32) -> Set
    ensures { result ≡ task_set kind i v s }
{
    if !(1..=7).contains(&i) {
        return s;
    }
    let at = i as usize - 1;
    let mut r = s;
    let t = s.tasks[at];
    r.tasks[at] = with_field(t, kind, v);
    r
}

// The set with the name that a word says.
#[tactic(auto, using(desk_buffers::proofs::BytesLaws::said_next, desk_buffers::proofs::BytesLaws::said_end))]
fn with_name(s: Set, word: &[u8]) -> Set
    ensures { result ≡ name_set word.now s }
{
    let mut r = s;
    for i in 0..16 {
        r.name[i] = hexadecimal::byte(word, i);
    }
    r
}

fn with_count(s: Set, v: u32) -> Set
    ensures { result ≡ count_set v s }
{
    Set {
        count: bytes::byte(v),
        ..s
    }
}

// The set with the field that the kind of the command names; a name stands behind the line's first five bytes.
#[tactic(auto, unfolding(crate::specs::Fields::set_with))]
pub fn with(s: Set, kind: usize, a: u32, b: u32, line: &[u8]) -> Set
    ensures { result ≡ set_with kind a b line.now s }
{
    match kind {
        kinds::NAME => with_name(s, bytes::behind(line)),
        kinds::COUNT => with_count(s, a),
        _ => with_task(s, kind, a, b),
    }
}

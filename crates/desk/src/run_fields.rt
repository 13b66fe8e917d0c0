// A run with one field set.
ghost use Rattle.std.specs.Prelude.{◌≡◌};
ghost use Rattle.desk.specs.Fields.{state_with, counts_with, place_set, run_with};

use commands::kinds;
use desk_buffers::bytes;
use game::states::{Job, TaskState};
use guard::runs::{Counts, Run};

// A task's state with its age or its job set, by the kind of the command.
#[tactic(auto, unfolding(crate::specs::Fields::state_with))]
fn with_state(x: TaskState, kind: usize, v: u32) -> TaskState
    ensures { result ≡ state_with kind v x }
{
    match kind {
        kinds::AGE => TaskState {
            age: bytes::byte(v),
            ..x
        },
        kinds::JOB => TaskState {
            job: Job::InHand(bytes::byte(v)),
            ..x
        },
        kinds::NO_JOB => TaskState {
            job: Job::Empty,
            ..x
        },
        _ => x,
    }
}

// A task's counts with one set.
#[tactic(auto, unfolding(crate::specs::Fields::counts_with))]
fn with_count(n: Counts, kind: usize, v: u32) -> Counts
    ensures { result ≡ counts_with kind v n }
{
    match kind {
        kinds::ARRIVED => Counts { arrived: v, ..n },
        kinds::FINISHED => Counts { finished: v, ..n },
        kinds::REPLACED => Counts { replaced: v, ..n },
        _ => n,
    }
}

// The run with a field of task i's place set. No one function with `set_fields::with_task`: that sets a record of a set.
#[tactic(auto, unfolding(crate::specs::Fields::place_set))]
fn with_place(r: Run, kind: usize, i: u32, v: u32) -> Run
    ensures { result ≡ place_set kind i v r }
{
    if !(1..=7).contains(&i) {
        return r;
    }
    let at = i as usize - 1;
    let mut q = r;
    let x = r.states[at];
    q.states[at] = with_state(x, kind, v);
    let n = r.counts[at];
    q.counts[at] = with_count(n, kind, v);
    q
}

// The run with the field set that the kind of the command names.
#[tactic(auto, unfolding(crate::specs::Fields::run_with))]
pub fn with(r: Run, kind: usize, a: u32, b: u32) -> Run
    ensures { result ≡ run_with kind a b r }
{
    match kind {
        kinds::TICKS => Run { ticks: a, ..r },
        kinds::SUBSTITUTIONS => Run {
            substitutions: a,
            ..r
        },
        kinds::READING => Run { reading: a, ..r },
        kinds::AWAITED => Run {
            awaited: Some(bytes::byte(a)),
            ..r
        },
        kinds::NOTHING_AWAITED => Run { awaited: None, ..r },
        _ => with_place(r, kind, a, b),
    }
}

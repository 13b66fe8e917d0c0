// A run by value, its start, and whether it fits a set.
ghost use Rattle.std.specs.Prelude.{◌≡◌, ◌<◌, ◌≤◌, if◌then◌else◌, nat_lt, IsTrue};
ghost use Rattle.arena.specs.Tests.{all_below};
ghost use Rattle.guard.specs.Runs.{tick_limit, start_run, start_of, refused, sum_holds, task_fits, place_empty, place_fits, legal_for, awaited_fits, fits};

use game::states::{Job, TaskState};
use game::{states, ticks};
use std::array;
use tasks::refusals::{Reason, Refusal};
use tasks::sets;
use tasks::sets::{Set, Task, ValidSet};

// A run counts at most so many ticks.
pub const TICK_LIMIT: u32 = 16777216;

// The jobs of a task, counted.
#[derive(Clone, Copy, Debug, PartialEq, Eq)]
pub struct Counts {
    pub arrived: u32,
    pub finished: u32,
    pub replaced: u32,
}

// A run by value has an array of states: `index_of` takes it alone.
// A run: each task's state and counts, the ticks, the substitutions, the last reading, and the choice whose report is awaited.
#[derive(Clone, Copy, Debug, PartialEq, Eq)]
pub struct Run {
    pub states: [TaskState; 7],
    pub counts: [Counts; 7],
    pub ticks: u32,
    pub substitutions: u32,
    pub reading: u32,
    pub awaited: Option<u8>,
}

// What a call answers, and the run after it.
#[derive(Clone, Copy, Debug, PartialEq, Eq)]
pub struct Answered<T> {
    pub answer: Result<T, Refusal>,
    pub run: Run,
}

// A task's place at the start: its first job has arrived.
const FRESH_STATE: TaskState = TaskState {
    age: 0,
    job: Job::InHand(0),
};

const FRESH_COUNTS: Counts = Counts {
    arrived: 1,
    finished: 0,
    replaced: 0,
};

// A place beyond the tasks.
const NO_STATE: TaskState = TaskState {
    age: 0,
    job: Job::Empty,
};

const NO_COUNTS: Counts = Counts {
    arrived: 0,
    finished: 0,
    replaced: 0,
};

// A run that fits its set.
#[derive(Clone, Copy)]
pub(crate) struct Fitting {
    pub v: ValidSet,
    pub run: Run,
    ghost fits: { IsTrue (fits v.set run) },
}

// A refusal, beside the run as it was given.
pub(crate) fn refuse<T>(run: Run, reason: Reason, place: u32) -> Answered<T>
    ensures { result ≡ refused run reason place }
{
    Answered {
        answer: Err(Refusal { reason, place }),
        run,
    }
}

// What place k holds: for one of n tasks the new, else what stands beyond.
fn place<T: Copy>(n: usize, k: usize, task: T, beyond: T) -> T
    ensures { result ≡ (if nat_lt k n then task else beyond) }
{
    if k < n { task } else { beyond }
}

// The run at the start, for n tasks; for none, at reading 0, a run of zeros with no job.
#[tactic(auto, unfolding(crate::specs::Runs::start_run))]
pub fn fresh_run(n: usize, reading: u32) -> Run
    ensures { result ≡ start_run n reading }
{
    Run {
        states: array::from_fn(|k| place(n, k, FRESH_STATE, NO_STATE)),
        counts: array::from_fn(|k| place(n, k, FRESH_COUNTS, NO_COUNTS)),
        ticks: 0,
        substitutions: 0,
        reading,
        awaited: None,
    }
}

// The start of a run.
pub fn start(s: Set, reading: u32) -> Answered<()>
    ensures { result ≡ start_of s reading }
{
    match sets::test(s) {
        Err(f) => Answered {
            answer: Err(f),
            run: fresh_run(0, 0),
        },
        Ok(_) => Answered {
            answer: Ok(()),
            run: fresh_run(usize::from(s.count), reading),
        },
    }
}

// Whether arrived is finished plus replaced plus the job in hand, where no sum wraps.
fn sum_holds(x: TaskState, n: Counts) -> bool
    ensures { result ≡ sum_holds x n }
{
    let done = u64::from(n.finished) + u64::from(n.replaced);
    u64::from(n.arrived) == done + u64::from(ticks::in_hand(x.job))
}

// Whether a task's place fits.
#[tactic(auto, unfolding(crate::specs::Runs::task_fits))]
fn task_fits(t: Task, ticks: u32, x: TaskState, n: Counts) -> bool
    ensures { result ≡ task_fits t ticks x n }
{
    states::in_range(t, x) && sum_holds(x, n) && 1 <= n.arrived && n.arrived - 1 <= ticks
}

// Whether a place is zero with no job.
#[tactic(auto, unfolding(crate::specs::Runs::place_empty))]
fn is_empty(x: TaskState, n: Counts) -> bool
    ensures { result ≡ place_empty x n }
{
    x == NO_STATE && n == NO_COUNTS
}

// Whether the place of task k + 1 fits.
#[tactic(auto, unfolding(crate::specs::Runs::place_fits))]
fn place_fits(s: &Set, r: &Run, k: usize) -> bool
    requires { k < 7 }
    ensures { result ≡ place_fits s.now r.now k }
{
    let x = r.states[k];
    let n = r.counts[k];
    if k < usize::from(s.count) {
        task_fits(s.tasks[k], r.ticks, x, n)
    } else {
        is_empty(x, n)
    }
}

// Whether a choice is idle or a runnable task.
#[tactic(auto, using(game::proofs::StateLaws::count_le), unfolding(crate::specs::Runs::legal_for))]
pub(crate) fn is_legal(v: &ValidSet, r: &Run, choice: usize) -> bool
    ensures { result ≡ legal_for v.now.set r.now.states choice }
{
    ticks::is_legal(&v.set, choice, |k| r.states[k])
}

// Whether what is awaited fits.
fn awaited_fits(v: &ValidSet, r: &Run) -> bool
    ensures { result ≡ awaited_fits v.now.set r.now r.now.awaited }
{
    match r.awaited {
        None => r.substitutions <= r.ticks,
        Some(c) => {
            r.ticks < TICK_LIMIT && r.substitutions <= r.ticks + 1 && is_legal(v, r, usize::from(c))
        }
    }
}

// Whether every place of a run fits.
fn places_fit(s: &Set, r: &Run) -> bool
    ensures { result ≡ all_below 7 (place_fits s.now r.now) }
{
    (0..7).all(|k| place_fits(s, r, k))
}

// Whether a run fits a set.
#[tactic(auto, unfolding(crate::specs::Runs::fits))]
pub(crate) fn fits_set(v: &ValidSet, r: &Run) -> bool
    ensures { result ≡ fits v.now.set r.now }
{
    r.ticks <= TICK_LIMIT && awaited_fits(v, r) && places_fit(&v.set, r)
}

// Sets of the runs' own cases, and runs that are set place by place, so that any run can be tried.
use cases::sets;
use cases::sets::{V1, V2, V3, V4};
use game::states::{Job, TaskState};
use guard::runs;
use guard::runs::{Counts, Run};
use tasks::sets::{Set, Task};

// soft 3 1 3, soft 2 1 2, soft 2 1 4: D minus age is 3, 2 and 2 at the start
pub fn ties() -> Set {
    sets::case_of([
        sets::soft(3, V1, V3),
        sets::soft(2, V1, V2),
        sets::soft(2, V1, V4),
    ])
}

// Three records, of which a count is said to be tasks.
pub fn counted(count: u8, a: Task, b: Task, c: Task) -> Set {
    let z = sets::blank();
    sets::set(count, [a, b, c, z, z, z, z])
}

pub fn many() -> Set {
    sets::all(7, sets::soft(1, V1, V1))
}

// cmax above D
pub fn late() -> Set {
    sets::case_of([sets::hard(2, V3, V3)])
}

pub fn started(s: Set, reading: u32) -> Run {
    runs::start(s, reading).run
}

// The run with another state and other counts in one place. Two of each, since `Run` holds them in two arrays.
pub fn placed(r: Run, k: usize, x: TaskState, n: Counts) -> Run {
    let mut q = r;
    if k < 7 {
        q.states[k] = x;
        q.counts[k] = n;
    }
    q
}

// With other totals.
pub fn totalled(r: Run, ticks: u32, substitutions: u32) -> Run {
    Run {
        ticks,
        substitutions,
        ..r
    }
}

// With a report awaited.
pub fn awaiting(r: Run, choice: u8) -> Run {
    Run {
        awaited: Some(choice),
        ..r
    }
}

pub fn holds(age: u8, given: u8) -> TaskState {
    TaskState {
        age,
        job: Job::InHand(given),
    }
}

pub fn empty(age: u8) -> TaskState {
    TaskState {
        age,
        job: Job::Empty,
    }
}

pub fn counts(arrived: u32, finished: u32, replaced: u32) -> Counts {
    Counts {
        arrived,
        finished,
        replaced,
    }
}

// PAIR at the index a + 4 × b of its tasks' local numbers, after a tick.
pub fn pair_at(a: TaskState, b: TaskState, reading: u32) -> Run {
    let r = totalled(started(sets::pair(), reading), 1, 0);
    placed(placed(r, 0, a, seen(a)), 1, b, seen(b))
}

// One job, in hand or finished.
fn seen(x: TaskState) -> Counts {
    match x.job {
        Job::Empty => counts(1, 1, 0),
        Job::InHand(_) => counts(1, 0, 0),
    }
}

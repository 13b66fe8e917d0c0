// What a call on a run answers, a line each, with the whole run that it returns.
use cases::lines::{put, put_answer, put_label, put_number, put_taken};
use game::states::{Job, TaskState};
use guard::runs::{Answered, Counts, Run};
use guard::{asks, reports, runs};
use tasks::sets::Set;

fn put_job(rt: &impl Print, j: Job) {
    match j {
        Job::Empty => put(rt, b"/-"),
        Job::InHand(g) => put_number(rt, b"/", g),
    }
}

fn put_place(rt: &impl Print, x: TaskState, n: Counts) {
    put_number(rt, b" ", x.age);
    put_job(rt, x.job);
    put_number(rt, b"/", n.arrived);
    put_number(rt, b"/", n.finished);
    put_number(rt, b"/", n.replaced);
}

fn put_awaited(rt: &impl Print, awaited: Option<u8>) {
    match awaited {
        None => put(rt, b" awaits nothing\n"),
        Some(c) => {
            put_number(rt, b" awaits ", c);
            put(rt, b"\n");
        }
    }
}

// The seven places, age, job and counts each, and the rest of a run.
fn put_places(rt: &impl Print, xs: [TaskState; 7], ns: [Counts; 7]) {
    put(rt, b" run");
    for (x, n) in xs.iter().zip(&ns) {
        put_place(rt, *x, *n);
    }
}

pub fn put_run(rt: &impl Print, r: Run) {
    put_places(rt, r.states, r.counts);
    put_number(rt, b" ticks ", r.ticks);
    put_number(rt, b" substitutions ", r.substitutions);
    put_number(rt, b" reading ", r.reading);
    put_awaited(rt, r.awaited);
}

// What a start or a report answers.
fn put_done(rt: &impl Print, a: Answered<()>) -> Run {
    put_taken(rt, b" done", a.answer);
    put_run(rt, a.run);
    a.run
}

pub fn start(rt: &impl Print, label: &[u8], s: Set, reading: u32) -> Run {
    put_label(rt, b"start ", label);
    put_done(rt, runs::start(s, reading))
}

pub fn ask(rt: &impl Print, label: &[u8], s: Set, table: &[u8], r: Run, proposal: u8) -> Run {
    put_label(rt, b"ask ", label);
    let a = asks::ask(s, table, r, proposal);
    put_answer(rt, b" choice ", a.answer);
    put_run(rt, a.run);
    a.run
}

// Seven parameters, and no struct: `reports::report` takes these, and each case gives its own.
pub fn report(
    rt: &impl Print,
    label: &[u8],
    s: Set,
    r: Run,
    reading: u32,
    finished: bool,
    arrivals: u8,
) -> Run {
    put_label(rt, b"report ", label);
    put_done(rt, reports::report(s, r, reading, finished, arrivals))
}

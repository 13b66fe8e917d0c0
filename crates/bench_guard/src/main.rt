// Walks a run with the built table of one set, with so many asks and reports more at each tick, to be timed from outside.
// Standard input: the count, seven records of six bytes, and three 16-bit numbers, of ticks, of asks and of reports a tick.
#![tactic(auto)]

use bench_input::{put, put_number, sum, wide};
use game::states::{Job, TaskState};
use guard::runs::{Answered, Run};
use guard::{asks, reports, runs};
use shield::builder;
use tasks::lists;
use tasks::sets::{Set, Task};

// A number for an answer.
fn of_asked(a: Answered<u8>) -> u32 {
    match a.answer {
        Ok(c) => sum(a.run.substitutions, u32::from(c)),
        Err(f) => f.place,
    }
}

// One place of the run, another each time.
fn of_run(r: Run, j: u16) -> u32 {
    let x = r.states[usize::from(j % 7)];
    let n = r.counts[usize::from(j % 7)];
    sum(sum(r.ticks, u32::from(x.age)), sum(n.arrived, n.finished))
}

// Jobs finish and arrive as late as they can.
fn arrives(t: Task, x: TaskState) -> bool {
    u32::from(x.age) + 1 == lists::longest(t.gaps)
}

fn arrivals(s: Set, xs: [TaskState; 7]) -> u8 {
    let mut bits = 0;
    for i in 0..7 {
        if arrives(s.tasks[i], xs[i]) {
            bits |= 1 << i;
        }
    }
    bits
}

fn ends(t: Task, x: TaskState) -> bool {
    match x.job {
        Job::Empty => false,
        Job::InHand(g) => u32::from(g) + 1 == lists::longest(t.runs),
    }
}

fn finishes(s: Set, xs: [TaskState; 7], choice: u8) -> bool {
    if choice == 0 || 7 < choice {
        return false;
    }
    let k = usize::from(choice) - 1;
    ends(s.tasks[k], xs[k])
}

fn finished(s: Set, r: Run) -> bool {
    r.awaited.is_some_and(|c| finishes(s, r.states, c))
}

// All proposals in turn.
fn after(p: u8, count: u8) -> u8 {
    if p < count { p + 1 } else { 0 }
}

// So many asks with the same state.
fn asks_more(s: Set, table: &[u8], r: Run, n: u16) -> u32 {
    let mut total = 0;
    let mut q = r;
    let mut p = 0;
    for j in 0..n {
        q.reading = u32::from(j);
        total = sum(total, of_asked(asks::ask(s, table, q, p)));
        p = after(p, s.count);
    }
    total
}

// So many reports that are taken.
fn reports_more(s: Set, r: Run, end: bool, bits: u8, n: u16) -> u32 {
    let mut total = 0;
    let mut q = r;
    for j in 0..n {
        q.reading = u32::from(j);
        let a = reports::report(s, q, q.reading + 1, end, bits);
        total = sum(total, of_run(a.run, j));
    }
    total
}

// A tick, and what its answers add up to in the reading that no call looks at.
fn tick(s: Set, table: &[u8], r: Run, asks: u16, reports: u16) -> Run {
    let n = asks_more(s, table, r, asks);
    let a = asks::ask(s, table, r, 0).run;
    let end = finished(s, a);
    let bits = arrivals(s, a.states);
    let m = reports_more(s, a, end, bits, reports);
    let mut q = reports::report(s, a, sum(a.reading, 1), end, bits).run;
    q.reading = sum(q.reading, sum(n, m));
    q
}

fn ticks(s: Set, table: &[u8], n: u16, asks: u16, reports: u16) -> Run {
    let mut r = runs::start(s, 0).run;
    for _ in 0..n {
        r = tick(s, table, r, asks, reports);
    }
    r
}

fn main(rt: HostRuntime) {
    let mut input = rt.stdin();
    let mut b = [0; 43];
    let mut n = [0; 6];
    reading::fill(&mut input, &mut b);
    reading::fill(&mut input, &mut n);
    let s = bench_input::set(b);
    let mut table = [0; 60000];
    let mut work = [0; 60000];
    let _ = builder::build(s, &mut table, &mut work);
    let r = ticks(
        s,
        &table,
        wide(n[0], n[1]),
        wide(n[2], n[3]),
        wide(n[4], n[5]),
    );
    put_number(&rt, b"ticks ", r.ticks);
    put_number(&rt, b" substitutions ", r.substitutions);
    put_number(&rt, b" sum ", r.reading);
    put(&rt, b"\n");
}

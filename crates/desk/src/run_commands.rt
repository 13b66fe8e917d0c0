// The commands on the run.
ghost use Rattle.std.specs.Prelude.{◌≡◌, take};
ghost use Rattle.guard.specs.Runs.{start_of};
ghost use Rattle.guard.specs.Ask.{ask_of};
ghost use Rattle.guard.specs.Report.{report_of};
ghost use Rattle.desk.specs.Steps.{run_after};

use crate::{LentDesk, run_fields};
use commands::kinds;
use commands::lines::Command;
use desk_buffers::{bytes, say};
use game::states::{Job, TaskState};
use guard::runs::{Counts, Run};
use guard::{asks, reports, runs};
use printing::{put, put_number};
use tasks::sets::Set;

fn start(rt: &impl Print, s: Set, reading: u32) -> Run
    ensures { result ≡ (start_of s reading).run }
{
    let started = runs::start(s, reading);
    crate::answer(rt, started.answer);
    started.run
}

fn ask(rt: &impl Print, s: Set, table: &[u8], r: Run, proposal: u8) -> Run
    ensures { result ≡ (ask_of s table.now r proposal).run }
{
    let asked = asks::ask(s, table, r, proposal);
    crate::number(rt, b"choice ", asked.answer);
    asked.run
}

fn report(rt: &impl Print, s: Set, r: Run, reading: u32, finished: bool, arrivals: u8) -> Run
    ensures { result ≡ (report_of s r reading finished arrivals).run }
{
    let reported = reports::report(s, r, reading, finished, arrivals);
    crate::answer(rt, reported.answer);
    reported.run
}

fn show_job(rt: &impl Print, job: Job) {
    match job {
        Job::Empty => put(rt, b" none"),
        Job::InHand(g) => put_number(rt, b" ", g),
    }
}

fn show_place(rt: &impl Print, x: TaskState, n: Counts) {
    put_number(rt, b" ", x.age);
    show_job(rt, x.job);
    put_number(rt, b" ", n.arrived);
    put_number(rt, b" ", n.finished);
    put_number(rt, b" ", n.replaced);
}

fn show_awaited(rt: &impl Print, awaited: Option<u8>) {
    match awaited {
        None => put(rt, b" none"),
        Some(c) => put_number(rt, b" ", c),
    }
}

fn show(rt: &impl Print, r: Run) {
    put_number(rt, b"run ", r.reading);
    put_number(rt, b" ", r.ticks);
    put_number(rt, b" ", r.substitutions);
    show_awaited(rt, r.awaited);
    for i in 0..7 {
        show_place(rt, r.states[i], r.counts[i]);
    }
    put(rt, b"\n");
}

// A command on the run, and the run after it.
#[tactic(auto, unfolding(crate::specs::Steps::run_after))]
pub fn carry_out(rt: &impl Print, c: Command, d: &LentDesk<'_>) -> Run
    ensures { result ≡ run_after c.kind c.values d.now.set (take d.now.buffers.lengths.table d.now.buffers.table.now) d.now.run }
{
    let vs = c.values;
    let s = d.set;
    let r = d.run;
    match c.kind {
        kinds::START => start(rt, s, vs.first),
        kinds::ASK => {
            let table = bytes::first(d.buffers.lengths.table, d.buffers.table);
            ask(rt, s, table, r, bytes::byte(vs.first))
        }
        kinds::REPORT => report(rt, s, r, vs.first, vs.second == 1, bytes::byte(vs.third)),
        kinds::SHOW_RUN => {
            show(rt, r);
            r
        }
        _ => {
            say::ok(rt);
            run_fields::with(r, c.kind, vs.first, vs.second)
        }
    }
}

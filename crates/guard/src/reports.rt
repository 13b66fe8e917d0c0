// Reporting: the run moves by the tick that the report names.
ghost use Rattle.std.specs.Prelude.{◌≡◌, ℕ, suc, ◌<◌, ◌≤◌, take, position, if◌then◌else◌, ◌==◌, nat_lt};
ghost use Rattle.std.specs.List.{list_any};
ghost use Rattle.game.specs.States.{state_at};
ghost use Rattle.game.specs.Ticks.{tick_of};
ghost use Rattle.guard.specs.Runs.{tick_limit, seven, counts_at, Small};
ghost use Rattle.guard.specs.Report.{next_reading, flags_at, tick_at, ticked, is_impossible, is_missed, strays, state_after, counts_after, run_after, report_named, report_awaited, report_of};

use crate::runs;
use crate::runs::{Answered, Counts, Fitting, Run};
use game::states::TaskState;
use game::ticks;
use game::ticks::{Flags, Ticked};
use shield::entries;
use std::array;
use tasks::refusals::Reason;
use tasks::sets::{Set, Task, ValidSet};

// What a report says of the awaited choice: whether the run job finished, and which jobs arrived.
#[derive(Clone, Copy, Debug, PartialEq, Eq)]
pub struct Outcome {
    pub choice: u8,
    pub finished: bool,
    pub arrivals: u8,
}

// The next reading, which rolls over to zero.
fn next_reading(reading: u32) -> u32
    ensures { result ≡ next_reading reading }
{
    reading.wrapping_add(1)
}

// What an outcome says of task k + 1.
fn flags_at(o: Outcome, k: usize) -> Flags
    requires { k < 7 }
    ensures { result ≡ flags_at o k }
{
    Flags {
        finishes: usize::from(o.choice) == k + 1 && o.finished,
        arrives: entries::allows(o.arrivals, k),
    }
}

// What the tick comes to for task k + 1.
fn tick_at(t: Task, x: TaskState, o: Outcome, k: usize) -> Ticked
    requires { k < 7 }
    ensures { result ≡ tick_of t (o.choice == suc k) x (flags_at o k) }
{
    ticks::tick(t, usize::from(o.choice) == k + 1, x, flags_at(o, k))
}

// For each place, worked out once.
#[tactic(auto, unfolding(crate::specs::Report::tick_at))]
fn tick_all(f: &Fitting, o: Outcome) -> [Ticked; 7]
    ensures { result ≡ seven (tick_at f.now.v.set f.now.run.states o) }
{
    array::from_fn(|k| tick_at(f.v.set.tasks[k], f.run.states[k], o, k))
}

// Whether a tick of the first n is not possible.
fn has_impossible(ts: &[Ticked; 7], n: usize) -> bool
    requires { n ≤ 7 }
    ensures { result ≡ list_any is_impossible (take n ts.now) }
{
    ts[..n].iter().any(|t| matches!(t, Ticked::Impossible))
}

// The lowest of the first n, from 0, that is a miss.
fn first_missed(ts: &[Ticked; 7], n: usize) -> Option<usize>
    requires { n ≤ 7 }
    ensures { result ≡ position is_missed (take n ts.now) }
{
    ts[..n].iter().position(|t| matches!(t, Ticked::Missed))
}

// Whether an outcome has a job finished though none was run, or an arrival above the tasks.
#[tactic(auto, using(game::proofs::StateLaws::count_le), unfolding(crate::specs::Report::strays))]
fn is_stray(v: &ValidSet, o: Outcome) -> bool
    ensures { result ≡ strays v.now.set o }
{
    o.finished && o.choice == 0 || o.arrivals >> v.set.count != 0
}

// The state of a task after its tick.
fn state_after(x: TaskState, t: Ticked) -> TaskState
    ensures { result ≡ state_after x t }
{
    match t {
        Ticked::Impossible | Ticked::Missed => x,
        Ticked::Next(y) => y,
    }
}

// The state in place k after its tick, of n tasks. No plainer: `runs::place` would have it worked out beyond the tasks too.
fn state_then(n: usize, x: TaskState, t: Ticked, k: usize) -> TaskState
    ensures { result ≡ (if nat_lt k n then state_after x t else x) }
{
    if k < n { state_after(x, t) } else { x }
}

// The states after the ticks, of n tasks.
fn move_states(n: usize, xs: [TaskState; 7], ts: [Ticked; 7]) -> [TaskState; 7]
    ensures { result ≡ seven (λ k. (if nat_lt k n then state_after (state_at xs k) (ticked ts k) else state_at xs k)) }
{
    array::from_fn(|k| state_then(n, xs[k], ts[k], k))
}

// The counts of a task after its tick.
fn counts_after(x: TaskState, n: Counts, f: Flags) -> Counts
    requires { Small n }
    ensures { result ≡ counts_after x n f }
{
    let replaced = f.arrives && ticks::in_hand(x.job) && !f.finishes;
    Counts {
        arrived: n.arrived + u32::from(f.arrives),
        finished: n.finished + u32::from(f.finishes),
        replaced: n.replaced + u32::from(replaced),
    }
}

// The counts in place k after an outcome, of n tasks. No plainer, as `state_then`.
fn counts_then(n: usize, x: TaskState, m: Counts, o: Outcome, k: usize) -> Counts
    requires { (k < 7) × Small m }
    ensures { result ≡ (if nat_lt k n then counts_after x m (flags_at o k) else m) }
{
    if k < n {
        counts_after(x, m, flags_at(o, k))
    } else {
        m
    }
}

// The counts after an outcome, of n tasks.
fn move_counts(n: usize, xs: [TaskState; 7], ns: [Counts; 7], o: Outcome) -> [Counts; 7]
    requires { (k : ℕ) → k < 7 → Small (counts_at ns k) }
    ensures { result ≡ seven (λ k. (if nat_lt k n then counts_after (state_at xs k) (counts_at ns k) (flags_at o k) else counts_at ns k)) }
{
    array::from_fn(|k| counts_then(n, xs[k], ns[k], o, k))
}

// The run after an outcome with these ticks.
#[tactic(auto, using(crate::proofs::RunLaws::small_at), unfolding(crate::specs::Report::run_after, crate::specs::Report::state_then, crate::specs::Report::counts_then))]
fn move_run(f: &Fitting, o: Outcome, ts: [Ticked; 7]) -> Run
    requires { (f.now.run.ticks < tick_limit) × (ts ≡ seven (tick_at f.now.v.set f.now.run.states o)) }
    ensures { result ≡ run_after f.now.v.set f.now.run o }
{
    let n = usize::from(f.v.set.count);
    let r = f.run;
    Run {
        states: move_states(n, r.states, ts),
        counts: move_counts(n, r.states, r.counts, o),
        ticks: r.ticks + 1,
        substitutions: r.substitutions,
        reading: next_reading(r.reading),
        awaited: None,
    }
}

// A report with the next reading: an outcome that is not possible, a miss, or the run after it.
#[tactic(auto, using(game::proofs::StateLaws::count_le, crate::proofs::ReportLaws::any_by, crate::proofs::ReportLaws::missed_by), unfolding(crate::specs::Report::impossible, crate::specs::Report::report_named))]
fn report_named(f: &Fitting, o: Outcome) -> Answered<()>
    requires { f.now.run.ticks < tick_limit }
    ensures { result ≡ report_named f.now.v.set f.now.run o }
{
    let n = usize::from(f.v.set.count);
    if is_stray(&f.v, o) {
        return runs::refuse(f.run, Reason::ImpossibleOutcome, 0);
    }
    let ts = tick_all(f, o);
    if has_impossible(&ts, n) {
        return runs::refuse(f.run, Reason::ImpossibleOutcome, 0);
    }
    match first_missed(&ts, n) {
        Some(k) => runs::refuse(f.run, Reason::HardMiss, (k + 1) as u32),
        None => Answered {
            answer: Ok(()),
            run: move_run(f, o, ts),
        },
    }
}

// A report of a run that fits.
#[tactic(auto, using(crate::proofs::RunLaws::ticks_left))]
fn report_awaited(f: &Fitting, reading: u32, finished: bool, arrivals: u8) -> Answered<()>
    ensures { result ≡ report_awaited f.now.v.set f.now.run reading finished arrivals f.now.run.awaited }
{
    match f.run.awaited {
        None => runs::refuse(f.run, Reason::OutOfTurn, 0),
        Some(choice) => {
            if reading != next_reading(f.run.reading) {
                return runs::refuse(f.run, Reason::WrongReading, 0);
            }
            let o = Outcome {
                choice,
                finished,
                arrivals,
            };
            report_named(f, o)
        }
    }
}

// A report: the run moves by what it names.
pub fn report(s: Set, r: Run, reading: u32, finished: bool, arrivals: u8) -> Answered<()>
    ensures { result ≡ report_of s r reading finished arrivals }
{
    match ValidSet::of(s) {
        Err(f) => Answered {
            answer: Err(f),
            run: r,
        },
        Ok(v) => {
            if !runs::fits_set(&v, &r) {
                return runs::refuse(r, Reason::StateDoesNotFit, 0);
            }
            report_awaited(&Fitting { v, run: r }, reading, finished, arrivals)
        }
    }
}

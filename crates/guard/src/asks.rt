// Asking: the guard gives the proposal back if the entry allows it, and otherwise a substitute.
ghost use Rattle.std.specs.Prelude.{◌≡◌, ◌<◌, ◌≤◌, IsTrue, length};
ghost use Rattle.arena.specs.Tests.{all_below};
ghost use Rattle.tasks.specs.Sets.{states_of};
ghost use Rattle.guard.specs.Runs.{Room, fits};
ghost use Rattle.guard.specs.Ask.{serves_for, serves, slack, better, substitute_to, choice_for, ask_given, ask_entry, ask_fits, ask_of};

use crate::runs;
use crate::runs::{Answered, Fitting, Run};
use game::states;
use shield::entries;
use tasks::refusals::Reason;
use tasks::sets::{Set, ValidSet};

// Whether each choice is not named, or legal.
fn names_legal(f: &Fitting, entry: u8) -> bool
    ensures { result ≡ all_below 8 (serves_for f.now.v.set f.now.run.states entry) }
{
    (0..8).all(|choice| !entries::allows(entry, choice) || runs::is_legal(&f.v, &f.run, choice))
}

// Whether an entry is not 0, and names only idle and runnable tasks.
#[tactic(auto, unfolding(crate::specs::Ask::serves))]
fn serves_state(f: &Fitting, entry: u8) -> bool
    ensures { result ≡ serves f.now.v.set f.now.run.states entry }
{
    entry != 0 && names_legal(f, entry)
}

// D minus age of task k + 1, 0 past the deadline.
fn slack_of(f: &Fitting, k: usize) -> u8
    requires { k < 7 }
    ensures { result ≡ slack f.now.v.set f.now.run.states k }
{
    f.v.set.tasks[k]
        .deadline
        .saturating_sub(f.run.states[k].age)
}

// No plainer: 0 is idle, which `better` of specs/ has where no task is allowed, and no lemma of std makes of what `min_by_key` picks,
// step by step, the choice that it names.
// The better of the choice so far, which is idle before any task, and task k + 1.
#[tactic(auto, unfolding(crate::specs::Ask::better))]
fn better_of(f: &Fitting, entry: u8, best: usize, k: usize) -> usize
    requires { (best ≤ 7) × (k < 7) }
    ensures value { result ≡ better f.now.v.set f.now.run.states entry best k }
    ensures small { result ≤ 7 }
{
    if entries::allows(entry, k + 1) && (best == 0 || slack_of(f, k) < slack_of(f, best - 1)) {
        k + 1
    } else {
        best
    }
}

// The allowed task with least D minus age.
#[tactic(auto, using(game::proofs::StateLaws::count_le), unfolding(crate::specs::Ask::substitute_to))]
fn substitute(f: &Fitting, entry: u8) -> usize
    ensures value { result ≡ substitute_to f.now.v.set f.now.run.states entry f.now.v.set.count }
    ensures small { result ≤ 7 }
{
    let mut best = 0;
    for k in 0..usize::from(f.v.set.count) {
        best = better_of(f, entry, best, k);
    }
    best
}

// The proposal if the entry allows it, and otherwise the substitute.
#[tactic(auto, unfolding(crate::specs::Ask::choice_for))]
fn choose(f: &Fitting, entry: u8, proposal: u8) -> u8
    requires { proposal ≤ 7 }
    ensures { result ≡ choice_for f.now.v.set f.now.run.states entry proposal }
{
    if entries::allows(entry, usize::from(proposal)) {
        proposal
    } else {
        substitute(f, entry) as u8
    }
}

// The choice is given and awaited; a substitution is counted.
#[tactic(auto, unfolding(crate::specs::Ask::ask_given))]
fn give(r: Run, proposal: u8, choice: u8) -> Answered<u8>
    requires { Room r.substitutions }
    ensures { result ≡ ask_given r proposal choice }
{
    let mut run = r;
    if choice != proposal {
        run.substitutions += 1;
    }
    run.awaited = Some(choice);
    Answered {
        answer: Ok(choice),
        run,
    }
}

// The entry of the run's state, and the choice by it.
#[tactic(auto, using(crate::proofs::RunLaws::index_small, crate::proofs::RunLaws::states_small, crate::proofs::RunLaws::room), unfolding(crate::specs::Ask::ask_entry))]
fn ask_entry(f: &Fitting, table: &[u8], proposal: u8) -> Answered<u8>
    requires { (states_of f.now.v.set ≤ length table.now) × (proposal ≤ 7) }
    ensures { result ≡ ask_entry f.now.v.set table.now f.now.run proposal }
{
    let i = states::index_of(f.v.set, f.run.states);
    let entry = table[i];
    if !serves_state(f, entry) {
        return runs::refuse(f.run, Reason::BadEntry, i as u32);
    }
    give(f.run, proposal, choose(f, entry, proposal))
}

// An ask with a table that is long enough.
#[tactic(auto, using(game::proofs::StateLaws::count_le), unfolding(crate::specs::Ask::ask_fits))]
fn ask_fits(v: ValidSet, table: &[u8], r: Run, proposal: u8) -> Answered<u8>
    requires { v.states ≤ length table.now }
    ensures { result ≡ ask_fits v.set table.now r proposal }
{
    if !runs::fits_set(&v, &r) {
        return runs::refuse(r, Reason::StateDoesNotFit, 0);
    }
    if r.awaited.is_some() {
        return runs::refuse(r, Reason::OutOfTurn, 0);
    }
    if r.ticks == runs::TICK_LIMIT {
        return runs::refuse(r, Reason::TicksUsedUp, 0);
    }
    if v.set.count < proposal {
        return runs::refuse(r, Reason::ProposalAboveCount, 0);
    }
    ask_entry(&Fitting { v, run: r }, table, proposal)
}

// An ask: the run's choice for a proposal.
pub fn ask(s: Set, table: &[u8], r: Run, proposal: u8) -> Answered<u8>
    ensures { result ≡ ask_of s table.now r proposal }
{
    match ValidSet::of(s) {
        Err(f) => Answered {
            answer: Err(f),
            run: r,
        },
        Ok(v) => {
            if table.len() < v.states as usize {
                return runs::refuse(r, Reason::BufferTooShort, v.states);
            }
            ask_fits(v, table, r, proposal)
        }
    }
}

// The outcomes of a choice, tested task by task with fewer tasks left each time, and what they leave of an entry.
ghost use Rattle.std.specs.Prelude.{◌≡◌, ◌&&◌, ℕ, ◌+◌, ◌*◌, ◌<◌, ◌≤◌, T, get_or, length};
ghost use Rattle.tasks.specs.Sets.{states_to, states_of};
ghost use Rattle.arena.specs.Arena.{fine};
ghost use Rattle.game.specs.States.{local_at};
ghost use Rattle.game.specs.Game.{legal_at, arena_of};
ghost use Rattle.game.specs.Walk.{walk};
ghost use Rattle.shield.specs.Entries.{names, entry_at, live};
ghost use Rattle.shield.specs.Shield.{next_entry};

use crate::entries;
use game::{states, ticks};
use tasks::sets;
use tasks::sets::ValidSet;

// The table is lent with any length: that it has room is shown once, by `build_passed` and `test_passed`.
// No plainer: a struct of table and set makes the clauses longer than the fact.
// A state of a set: its index, and the local numbers of its tasks.
#[derive(Clone, Copy)]
struct State {
    v: ValidSet,
    index: usize,
    locals: [u32; 7],
    ghost inside: { index < states_of v.set },
    ghost by_task: { (k : ℕ) → k < v.set.count → get_or locals k 0 ≡ local_at v.set index k },
}

// With k tasks left, and the index of those done: each outcome of a legal choice is no miss and on an entry that is not zero.
#[tactic(auto, using(game::proofs::StateLaws::count_le, crate::proofs::FineLaws::locals_lt, crate::proofs::FineLaws::legal_hand))]
fn walk_on(state: &State, table: &[u8], choice: usize, k: usize, at: usize) -> bool
    requires room { (k ≤ state.now.v.set.count) × ((at + 1) * states_to state.now.v.set k ≤ length table.now) }
    requires legal { T (legal_at state.now.v.set state.now.index choice) }
    ensures { result ≡ walk state.now.v.set state.now.locals choice (live table.now) k at }
{
    if k == 0 {
        return table[at] != 0;
    }
    let left = k - 1;
    let t = state.v.set.tasks[left];
    let m = ticks::moves_of(t, choice == k, state.locals[left]);
    if m.misses {
        return false;
    }
    let from = at * (sets::locals(t) as usize);
    if m.comes && !walk_on(state, table, choice, left, from) {
        return false;
    }
    if let Some(l) = m.ended {
        if !walk_on(state, table, choice, left, from + l as usize) {
            return false;
        }
    }
    match m.stayed {
        Some(l) => walk_on(state, table, choice, left, from + l as usize),
        None => true,
    }
}

// Whether a choice is legal in a state, with all outcomes no miss and on an entry that is not zero.
// The count by `as`: of `usize::from` its answer does not close, since the walk's law speaks of the count itself.
#[tactic(auto, using(game::proofs::StateLaws::count_le, crate::proofs::FineLaws::locals_lt))]
fn is_fine(state: &State, table: &[u8], choice: usize) -> bool
    requires { states_of state.now.v.set ≤ length table.now }
    ensures { result ≡ fine (arena_of state.now.v.set) (live table.now) state.now.index choice }
{
    ticks::is_legal(&state.v.set, choice, |k| {
        states::state_of(state.v.set.tasks[k], state.locals[k])
    }) && walk_on(state, table, choice, state.v.set.count as usize, 0)
}

// What is left of the entry of state i.
#[tactic(auto, using(crate::proofs::FineLaws::next_none, crate::proofs::FineLaws::marks_room), unfolding(crate::specs::Entries::marks))]
pub(crate) fn next_entry(v: &ValidSet, table: &[u8], i: usize) -> u8
    requires { (i < states_of v.now.set) × (states_of v.now.set ≤ length table.now) }
    ensures { result ≡ next_entry v.now.set table.now i }
{
    if table[i] == 0 {
        return 0;
    }
    let state = State {
        v: *v,
        index: i,
        locals: states::locals_at(v.set, i),
    };
    let mut entry = 0;
    for choice in 0..8 {
        if still_fine(&state, table, choice) {
            entry += entries::only(choice);
        }
    }
    entry
}

// Whether a state's entry names a choice that is fine.
fn still_fine(state: &State, table: &[u8], choice: usize) -> bool
    requires { (states_of state.now.v.set ≤ length table.now) × (choice < 8) }
    ensures { result ≡ (names (entry_at table.now state.now.index) choice && fine (arena_of state.now.v.set) (live table.now) state.now.index choice) }
{
    entries::allows(table[state.index], choice) && is_fine(state, table, choice)
}

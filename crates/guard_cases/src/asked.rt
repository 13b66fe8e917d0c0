// Starts and asks: every refusal in its order, proposals given back, substitutes and ties.
use crate::{made, show};
use cases::{lines, sets};
use guard::asks;
use guard::runs::Run;
use shield::builder;

// Sets that are taken, and sets that are refused before all else.
pub fn starts_taken(rt: &impl Print) {
    let t = sets::hard(1, sets::V1, sets::V1);
    let z = sets::blank();
    show::start(rt, b"PAIR, 5", sets::pair(), 5);
    show::start(rt, b"PAIR, 4294967295", sets::pair(), 4294967295);
    show::start(rt, b"hard 1 1 1, 0", made::counted(1, t, z, z), 0);
    show::start(rt, b"seven of soft 1 1 1, 1", made::many(), 1);
}

pub fn starts_refused(rt: &impl Print) {
    let t = sets::hard(1, sets::V1, sets::V1);
    let z = sets::blank();
    show::start(rt, b"hard 2 3 3, 5", made::late(), 5);
    show::start(rt, b"no task, 5", made::counted(0, t, z, z), 5);
    show::start(
        rt,
        b"a record beyond the count, 5",
        made::counted(1, t, z, t),
        5,
    );
    show::start(
        rt,
        b"hard 16 16 16, hard 13 13 16, 5",
        sets::case_of([
            sets::hard(16, sets::V16, sets::V16),
            sets::hard(13, sets::V13, sets::V16),
        ]),
        5,
    );
}

fn change(table: &mut [u8], index: usize, entry: u8) {
    if let Some(e) = table.get_mut(index) {
        *e = entry;
    }
}

// An ask with PAIR's built table, one entry of it changed.
fn ask_with(rt: &impl Print, label: &[u8], r: Run, index: usize, entry: u8, proposal: u8) {
    let mut table = [7; 16];
    let mut work = [9; 16];
    let _ = builder::build(sets::pair(), &mut table, &mut work);
    change(&mut table, index, entry);
    show::ask(rt, label, sets::pair(), &table, r, proposal);
}

// With no entry changed.
fn ask_built(rt: &impl Print, label: &[u8], r: Run, proposal: u8) {
    ask_with(rt, label, r, 16, 0, proposal);
}

// Given back, or substituted. Three functions, and no one with a number: each label is one text of its own.
pub fn proposals_at_0(rt: &impl Print) {
    let fresh = made::started(sets::pair(), 5);
    ask_built(rt, b"PAIR at 0, 0", fresh, 0);
    ask_built(rt, b"PAIR at 0, 1", fresh, 1);
    ask_built(rt, b"PAIR at 0, 2", fresh, 2);
}

pub fn proposals_at_1(rt: &impl Print) {
    let first = made::pair_at(made::empty(0), made::holds(0, 0), 5);
    ask_built(rt, b"PAIR at 1, 0", first, 0);
    ask_built(rt, b"PAIR at 1, 1", first, 1);
    ask_built(rt, b"PAIR at 1, 2", first, 2);
}

pub fn proposals_at_15(rt: &impl Print) {
    let last = made::pair_at(made::empty(1), made::empty(1), 5);
    ask_built(rt, b"PAIR at 15, 0", last, 0);
    ask_built(rt, b"PAIR at 15, 1", last, 1);
    ask_built(rt, b"PAIR at 15, 2", last, 2);
}

// 16 looks at the whole entry, whatever is proposed, and does not judge safety.
pub fn entries_unsafe(rt: &impl Print) {
    let tight = made::pair_at(made::holds(1, 0), made::holds(1, 0), 5);
    ask_built(rt, b"PAIR at 10, 1", tight, 1);
    ask_with(rt, b"PAIR at 10 with entry 4, 1", tight, 10, 4, 1);
    ask_with(rt, b"PAIR at 10 with entry 1, 2", tight, 10, 1, 2);
}

pub fn entries_not_runnable(rt: &impl Print) {
    let first = made::pair_at(made::empty(0), made::holds(0, 0), 5);
    ask_with(rt, b"PAIR at 1 with entry 7, 2", first, 1, 7, 2);
    ask_with(rt, b"PAIR at 1 with entry 2, 1", first, 1, 2, 1);
}

pub fn entries_at_0(rt: &impl Print) {
    let fresh = made::started(sets::pair(), 5);
    let late = made::pair_at(made::holds(1, 0), made::holds(0, 0), 5);
    ask_with(rt, b"PAIR at 0 with entry 0, 1", fresh, 0, 0, 1);
    ask_with(rt, b"PAIR at 0 with entry 15, 1", fresh, 0, 15, 1);
    ask_with(rt, b"PAIR at 0 with entry 130, 1", fresh, 0, 130, 1);
    ask_with(rt, b"PAIR at 0 with entry 7, 0", fresh, 0, 7, 0);
    ask_with(rt, b"PAIR at 2 with entry 6, 0", late, 2, 6, 0);
}

// Two faults at once: the earlier number of 7, 21, 14, 20, 15, 16 is given.
pub fn asks_short(rt: &impl Print) {
    let fresh = made::started(sets::pair(), 5);
    let waits = made::awaiting(fresh, 1);
    let mangled = made::totalled(fresh, 0, 1);
    let used = made::totalled(fresh, 16777216, 0);
    show::ask(
        rt,
        b"hard 2 3 3 and 7 and 21",
        made::late(),
        &[6; 0],
        mangled,
        1,
    );
    show::ask(rt, b"7, none", sets::pair(), &[6; 0], fresh, 1);
    show::ask(rt, b"7 and 21", sets::pair(), &[6; 15], mangled, 1);
    show::ask(rt, b"7 and 14", sets::pair(), &[6; 15], waits, 1);
    show::ask(rt, b"7 and 20", sets::pair(), &[6; 15], used, 1);
    show::ask(rt, b"7 and 15", sets::pair(), &[6; 15], fresh, 3);
}

pub fn asks_unfit(rt: &impl Print) {
    let fresh = made::started(sets::pair(), 5);
    let mangled = made::totalled(fresh, 0, 1);
    let used = made::totalled(fresh, 16777216, 0);
    ask_built(rt, b"21", mangled, 1);
    ask_built(
        rt,
        b"21 and 14",
        made::awaiting(made::totalled(fresh, 0, 2), 1),
        1,
    );
    ask_built(rt, b"21 and 14 and 20", made::awaiting(used, 0), 1);
    ask_with(rt, b"21 and 15 and 16", mangled, 0, 0, 3);
}

pub fn asks_awaited(rt: &impl Print) {
    let fresh = made::started(sets::pair(), 5);
    let waits = made::awaiting(fresh, 1);
    ask_built(rt, b"14", waits, 1);
    ask_built(rt, b"14 and 15", waits, 3);
    ask_with(rt, b"14 and 16", waits, 0, 0, 1);
}

pub fn asks_used_up(rt: &impl Print) {
    let fresh = made::started(sets::pair(), 5);
    let used = made::totalled(fresh, 16777216, 0);
    ask_built(rt, b"20", used, 1);
    ask_built(rt, b"20 and 15", used, 3);
    ask_with(rt, b"20 and 16", used, 0, 0, 1);
}

pub fn asks_refused(rt: &impl Print) {
    let fresh = made::started(sets::pair(), 5);
    ask_built(rt, b"15", fresh, 3);
    ask_built(rt, b"15, 255", fresh, 255);
    ask_with(rt, b"15 and 16", fresh, 0, 0, 3);
    ask_with(rt, b"16", fresh, 0, 0, 1);
    show::ask(rt, b"17 bytes", sets::pair(), &[6; 17], fresh, 1);
}

// What an entry makes of a proposal: the choice and the substitutions.
fn choice(rt: &impl Print, table: &[u8], r: Run, proposal: u8) {
    let a = asks::ask(made::ties(), table, r, proposal);
    lines::put_answer(rt, b" choice ", a.answer);
    lines::put_number(rt, b" substitutions ", a.run.substitutions);
}

// Of each from 0 to 3.
fn choices(rt: &impl Print, entry: u8, r: Run) {
    let table = [entry; 288];
    lines::put_number(rt, b"entry ", entry);
    lines::put(rt, b":");
    for proposal in 0..4 {
        choice(rt, &table, r, proposal);
    }
    lines::put(rt, b"\n");
}

fn entries_from_0_to_16(rt: &impl Print, r: Run) {
    for e in 0..=16 {
        choices(rt, e, r);
    }
}

// D minus age 3, 2 and 2; then 1, 1 and 2; then 2, 2 and 1.
pub fn substitutes(rt: &impl Print) {
    let r = made::started(made::ties(), 5);
    let one = made::counts(1, 0, 0);
    let later = made::placed(r, 0, made::holds(2, 0), one);
    lines::put(rt, b"D minus age 3, 2 and 2\n");
    entries_from_0_to_16(rt, r);
    lines::put(rt, b"D minus age 1, 1 and 2\n");
    entries_from_0_to_16(rt, made::placed(later, 1, made::holds(1, 0), one));
    lines::put(rt, b"D minus age 2, 2 and 1\n");
    let level = made::placed(r, 0, made::holds(1, 0), one);
    entries_from_0_to_16(rt, made::placed(level, 2, made::holds(1, 0), one));
}

// With seven tasks bit 7 is task 7.
pub fn seven_tasks(rt: &impl Print) {
    let s = made::many();
    let r = made::started(s, 5);
    show::ask(rt, b"seven of soft 1 1 1, 0", s, &[255; 128], r, 0);
    show::ask(rt, b"seven of soft 1 1 1, 7", s, &[255; 128], r, 7);
    show::ask(rt, b"seven of soft 1 1 1, 8", s, &[255; 128], r, 8);
    show::ask(
        rt,
        b"seven of soft 1 1 1, every entry 127, 7",
        s,
        &[127; 128],
        r,
        7,
    );
    show::ask(
        rt,
        b"seven of soft 1 1 1, every entry 128, 0",
        s,
        &[128; 128],
        r,
        0,
    );
}

// Runs with built tables, a line a tick: each report is the first that is taken, of all that there are.
use crate::{made, show};
use cases::{lines, sets};
use guard::runs::Run;
use guard::{asks, reports};
use shield::builder;
use tasks::sets::Set;

fn asked(rt: &impl Print, s: Set, table: &[u8], r: Run, proposal: u8) -> Run {
    let a = asks::ask(s, table, r, proposal);
    lines::put_number(rt, b" ask ", proposal);
    lines::put_answer(rt, b" choice ", a.answer);
    a.run
}

// The reports from one on, in a circle: finished in the ninth bit, the arrivals below it.
fn reported(rt: &impl Print, s: Set, r: Run, from: u16) -> Run {
    let next = r.reading.wrapping_add(1);
    for j in 0..512 {
        let bits = (from % 512 + j) % 512;
        let a = reports::report(s, r, next, 256 <= bits, (bits % 256) as u8);
        if a.answer.is_ok() {
            lines::put_number(rt, b" report ", bits);
            return a.run;
        }
    }
    r
}

// All proposals in turn, and one above three tasks or fewer.
fn proposed(count: u8, i: u8) -> u8 {
    if count < 4 { i % 4 } else { i % 8 }
}

fn tick(rt: &impl Print, s: Set, table: &[u8], r: Run, i: u8) -> Run {
    let a = asked(rt, s, table, r, proposed(s.count, i));
    let b = reported(rt, s, a, u16::from(i) * 37);
    show::put_run(rt, b);
    b
}

fn ticks(rt: &impl Print, label: &[u8], s: Set, table: &[u8]) {
    let mut r = made::started(s, 4294967290);
    for i in 0..24 {
        lines::put_label(rt, b"tick of ", label);
        r = tick(rt, s, table, r, i);
    }
}

pub fn small(rt: &impl Print) {
    let mut table = [7; 288];
    let mut work = [9; 288];
    let _ = builder::build(sets::pair(), &mut table, &mut work);
    ticks(rt, b"PAIR", sets::pair(), &table);
    let _ = builder::build(sets::example(), &mut table, &mut work);
    ticks(rt, b"hard 2 1 3, soft 2 1,2 3", sets::example(), &table);
    let _ = builder::build(made::ties(), &mut table, &mut work);
    ticks(
        rt,
        b"soft 3 1 3, soft 2 1 2, soft 2 1 4",
        made::ties(),
        &table,
    );
    let _ = builder::build(made::many(), &mut table, &mut work);
    ticks(rt, b"seven of soft 1 1 1", made::many(), &table);
}

// 60,000 states.
pub fn large(rt: &impl Print) {
    let mut table = [7; 60000];
    let mut work = [9; 60000];
    let s = made::counted(
        3,
        sets::soft(14, sets::V14, sets::V16),
        sets::hard(1, sets::V1, sets::V5),
        sets::hard(5, sets::V1 + sets::V4, sets::V5),
    );
    let _ = builder::build(s, &mut table, &mut work);
    ticks(rt, b"soft 14 14 16, hard 1 1 5, hard 5 1,4 5", s, &table);
}

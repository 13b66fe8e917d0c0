// Reports: readings, every refusal in its order, misses, and jobs that are replaced.
use crate::{made, show};
use cases::sets;
use guard::runs::Run;
use tasks::sets::Set;

// PAIR at an index, with a choice awaited: the next reading is 6.
fn report_at(rt: &impl Print, label: &[u8], r: Run, choice: u8, finished: bool, arrivals: u8) {
    let s = sets::pair();
    show::report(
        rt,
        label,
        s,
        made::awaiting(r, choice),
        6,
        finished,
        arrivals,
    );
}

// A report of a choice. Eight parameters, and no struct: `reports::report` takes these, and each case gives its own.
fn taken(
    rt: &impl Print,
    label: &[u8],
    s: Set,
    r: Run,
    choice: u8,
    reading: u32,
    finished: bool,
    arrivals: u8,
) -> Run {
    show::report(
        rt,
        label,
        s,
        made::awaiting(r, choice),
        reading,
        finished,
        arrivals,
    )
}

// The reading rolls over to zero.
pub fn readings_over(rt: &impl Print) {
    let s = sets::pair();
    let r = made::started(s, 4294967295);
    taken(rt, b"4294967295 again", s, r, 1, 4294967295, true, 0);
    taken(rt, b"1 after 4294967295", s, r, 1, 1, true, 0);
    taken(
        rt,
        b"4294967294 after 4294967295",
        s,
        r,
        1,
        4294967294,
        true,
        0,
    );
    let q = taken(rt, b"0 after 4294967295", s, r, 1, 0, true, 0);
    taken(rt, b"0 again", s, q, 2, 0, true, 3);
    taken(rt, b"1 after 0", s, q, 2, 1, true, 3);
}

pub fn readings_before(rt: &impl Print) {
    let s = sets::pair();
    let r = made::started(s, 4294967294);
    taken(rt, b"0 after 4294967294", s, r, 1, 0, true, 0);
    taken(
        rt,
        b"4294967295 after 4294967294",
        s,
        r,
        1,
        4294967295,
        true,
        0,
    );
}

// 18 for any task comes before 19 for any.
pub fn misses_idle(rt: &impl Print) {
    let tight = made::pair_at(made::holds(1, 0), made::holds(1, 0), 5);
    report_at(rt, b"PAIR at 10, idle, 3", tight, 0, false, 3);
    report_at(rt, b"PAIR at 10, idle, 1", tight, 0, false, 1);
    report_at(rt, b"PAIR at 10, idle, 2", tight, 0, false, 2);
    report_at(rt, b"PAIR at 10, idle, 0", tight, 0, false, 0);
}

pub fn misses_run(rt: &impl Print) {
    let tight = made::pair_at(made::holds(1, 0), made::holds(1, 0), 5);
    report_at(rt, b"PAIR at 10, 1 finished, 3", tight, 1, true, 3);
    report_at(rt, b"PAIR at 10, 2 finished, 3", tight, 2, true, 3);
    report_at(rt, b"PAIR at 10, 1 not finished, 3", tight, 1, false, 3);
    report_at(rt, b"PAIR at 10, idle finished, 3", tight, 0, true, 3);
}

pub fn misses_above(rt: &impl Print) {
    let tight = made::pair_at(made::holds(1, 0), made::holds(1, 0), 5);
    report_at(rt, b"PAIR at 10, idle, 7", tight, 0, false, 7);
    report_at(rt, b"PAIR at 10, idle, 131", tight, 0, false, 131);
}

pub fn misses_half(rt: &impl Print) {
    let half = made::pair_at(made::empty(1), made::holds(1, 0), 5);
    report_at(rt, b"PAIR at 11, idle, 3", half, 0, false, 3);
    report_at(rt, b"PAIR at 11, 2 finished, 3", half, 2, true, 3);
    report_at(rt, b"PAIR at 11, 2 finished, 1", half, 2, true, 1);
}

// What is possible, and what is not.
pub fn outcomes_at_0(rt: &impl Print) {
    let fresh = made::pair_at(made::holds(0, 0), made::holds(0, 0), 5);
    report_at(rt, b"PAIR at 0, 1 finished, 0", fresh, 1, true, 0);
    report_at(rt, b"PAIR at 0, 1 not finished, 0", fresh, 1, false, 0);
    report_at(rt, b"PAIR at 0, 1 finished, 1", fresh, 1, true, 1);
    report_at(rt, b"PAIR at 0, idle, 0", fresh, 0, false, 0);
    report_at(rt, b"PAIR at 0, idle finished, 0", fresh, 0, true, 0);
}

pub fn outcomes_at_15(rt: &impl Print) {
    let none = made::pair_at(made::empty(1), made::empty(1), 5);
    report_at(rt, b"PAIR at 15, idle, 0", none, 0, false, 0);
    report_at(rt, b"PAIR at 15, idle, 1", none, 0, false, 1);
    report_at(rt, b"PAIR at 15, idle, 2", none, 0, false, 2);
    report_at(rt, b"PAIR at 15, idle, 3", none, 0, false, 3);
    report_at(rt, b"PAIR at 15, idle, 4", none, 0, false, 4);
    report_at(rt, b"PAIR at 15, idle, 128", none, 0, false, 128);
}

pub fn outcomes_of_seven(rt: &impl Print) {
    let s = made::many();
    let m = made::awaiting(made::started(s, 5), 7);
    show::report(rt, b"seven, 7 finished, 127", s, m, 6, true, 127);
    show::report(rt, b"seven, 7 finished, 255", s, m, 6, true, 255);
    show::report(rt, b"seven, 7 finished, 63", s, m, 6, true, 63);
}

// An early finish, and an arrival that stays away.
pub fn early(rt: &impl Print) {
    let s = sets::example();
    let r = made::started(s, 5);
    taken(rt, b"soft 2 1,2 3, finished after 1", s, r, 2, 6, true, 0);
    let q = taken(
        rt,
        b"soft 2 1,2 3, not finished after 1",
        s,
        r,
        2,
        6,
        false,
        0,
    );
    taken(
        rt,
        b"soft 2 1,2 3, not finished after 2",
        s,
        q,
        2,
        7,
        false,
        0,
    );
    taken(
        rt,
        b"soft 2 1,2 3, finished after 2, 19 for 1",
        s,
        q,
        2,
        7,
        true,
        0,
    );
}

pub fn away(rt: &impl Print) {
    let z = sets::blank();
    let s = made::counted(1, sets::hard(1, sets::V1, sets::V1 + sets::V2), z, z);
    let r = made::started(s, 5);
    taken(rt, b"hard 1 1 1,2, arrives", s, r, 1, 6, true, 1);
    let q = taken(rt, b"hard 1 1 1,2, stays away", s, r, 1, 6, true, 0);
    taken(rt, b"hard 1 1 1,2, stays away again", s, q, 0, 7, false, 0);
    taken(rt, b"hard 1 1 1,2, arrives later", s, q, 0, 7, false, 1);
}

// Two faults at once: the earlier number of 21, 14, 17, 18, 19 is given.
pub fn reports_unfit(rt: &impl Print) {
    let s = sets::pair();
    let tight = made::pair_at(made::holds(1, 0), made::holds(1, 0), 5);
    let mangled = made::awaiting(made::totalled(tight, 1, 3), 0);
    let idle = made::totalled(tight, 1, 2);
    show::report(rt, b"hard 2 3 3 and 21", made::late(), mangled, 6, false, 3);
    show::report(rt, b"21", s, mangled, 6, true, 3);
    show::report(rt, b"21 and 14", s, idle, 6, true, 3);
    show::report(rt, b"21 and 17", s, mangled, 5, true, 3);
    show::report(rt, b"21 and 18", s, mangled, 6, true, 255);
    show::report(rt, b"21 and 19", s, mangled, 6, false, 3);
}

pub fn reports_unasked(rt: &impl Print) {
    let s = sets::pair();
    let tight = made::pair_at(made::holds(1, 0), made::holds(1, 0), 5);
    show::report(rt, b"14", s, tight, 6, true, 0);
    show::report(rt, b"14 and 17", s, tight, 5, true, 0);
    show::report(rt, b"14 and 18", s, tight, 6, true, 255);
}

pub fn reports_refused(rt: &impl Print) {
    let s = sets::pair();
    let tight = made::pair_at(made::holds(1, 0), made::holds(1, 0), 5);
    let waits = made::awaiting(tight, 0);
    show::report(rt, b"17", s, waits, 7, false, 3);
    show::report(rt, b"17 and 18", s, waits, 5, true, 255);
    show::report(rt, b"17 and 19", s, waits, 5, false, 3);
    show::report(rt, b"18 and 19", s, waits, 6, false, 1);
    show::report(rt, b"19", s, waits, 6, false, 3);
}

// A soft job that is not finished is replaced when the next arrives.
fn replaced_once(rt: &impl Print, s: Set, r: Run) -> Run {
    let a = taken(rt, b"hard 2 1 3 done", s, r, 1, 6, true, 0);
    let b = taken(rt, b"soft 2 1,2 3 given 1", s, a, 2, 7, false, 0);
    taken(rt, b"both arrive, soft replaced", s, b, 0, 8, false, 3)
}

fn replaced_none(rt: &impl Print, s: Set, r: Run) -> Run {
    let a = taken(rt, b"hard done again", s, r, 1, 9, true, 0);
    let b = taken(rt, b"soft finished", s, a, 2, 10, true, 0);
    taken(rt, b"both arrive, none replaced", s, b, 0, 11, false, 3)
}

fn replaced_again(rt: &impl Print, s: Set, r: Run) {
    let a = taken(rt, b"soft given 1", s, r, 2, 12, false, 0);
    let b = taken(rt, b"hard done late", s, a, 1, 13, true, 0);
    taken(
        rt,
        b"both arrive, soft replaced again",
        s,
        b,
        0,
        14,
        false,
        3,
    );
}

pub fn replaced(rt: &impl Print) {
    let s = sets::example();
    let r = made::started(s, 5);
    replaced_again(rt, s, replaced_none(rt, s, replaced_once(rt, s, r)));
    let m = made::many();
    taken(
        rt,
        b"six of seven replaced",
        m,
        made::started(m, 5),
        3,
        6,
        true,
        127,
    );
}

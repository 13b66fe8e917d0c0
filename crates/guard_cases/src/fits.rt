// A state fits the set: each clause at its edge and one beyond, by an ask and by a report.
use crate::{made, show};
use cases::{lines, sets};
use game::states::TaskState;
use guard::runs::{Counts, Run};

// A run of hard 2 1 3 and soft 2 1,2 3 after ten ticks, with a job in hand each.
fn midway() -> Run {
    let r = made::totalled(made::started(sets::example(), 5), 10, 4);
    let q = made::placed(r, 0, made::holds(1, 0), made::counts(4, 3, 0));
    made::placed(q, 1, made::holds(1, 1), made::counts(4, 1, 2))
}

// 14 from the call that is out of turn says that the run fits; 21 from both, that it does not.
fn tried(rt: &impl Print, label: &[u8], r: Run) {
    let s = sets::example();
    show::ask(rt, label, s, &[1; 54], r, 0);
    show::report(rt, label, s, r, 6, false, 0);
}

// With another state and other counts in one place.
fn tried_at(rt: &impl Print, k: usize, label: &[u8], x: TaskState, n: Counts) {
    tried(rt, label, made::placed(midway(), k, x, n));
}

// Ages and ticks given are in range.
pub fn ages(rt: &impl Print) {
    let n = made::counts(4, 3, 0);
    tried(rt, b"midway", midway());
    tried_at(rt, 0, b"age 2, overdue", made::holds(2, 0), n);
    tried_at(rt, 0, b"age 3", made::holds(3, 0), n);
    tried_at(rt, 0, b"age 255", made::holds(255, 0), n);
    tried_at(
        rt,
        0,
        b"age 3, no job",
        made::empty(3),
        made::counts(4, 4, 0),
    );
}

pub fn given(rt: &impl Print) {
    let n = made::counts(4, 3, 0);
    let m = made::counts(4, 1, 2);
    tried_at(rt, 0, b"given 1 of 1", made::holds(1, 1), n);
    tried_at(rt, 0, b"given 255", made::holds(1, 255), n);
    tried_at(rt, 1, b"given 1 at age 0", made::holds(0, 1), m);
    tried_at(rt, 1, b"given 2 of 2", made::holds(1, 2), m);
    tried_at(rt, 1, b"age 3 of the second", made::holds(3, 0), m);
}

// An awaited choice is idle or runnable.
pub fn choices(rt: &impl Print) {
    let r = midway();
    tried(rt, b"awaits 0", made::awaiting(r, 0));
    tried(rt, b"awaits 1", made::awaiting(r, 1));
    tried(rt, b"awaits 2", made::awaiting(r, 2));
    tried(rt, b"awaits 3", made::awaiting(r, 3));
    tried(rt, b"awaits 255", made::awaiting(r, 255));
}

pub fn choices_not_runnable(rt: &impl Print) {
    let r = midway();
    let n = made::counts(4, 3, 0);
    let overdue = made::placed(r, 0, made::holds(2, 0), n);
    let none = made::placed(r, 0, made::empty(1), made::counts(4, 4, 0));
    tried(rt, b"awaits 1 at age 2", made::awaiting(overdue, 1));
    tried(rt, b"awaits 2 beside it", made::awaiting(overdue, 2));
    tried(rt, b"awaits 1 with no job", made::awaiting(none, 1));
    tried(rt, b"awaits 0 with no job", made::awaiting(none, 0));
}

// The job sums hold, where no sum wraps; arrived is 1 to ticks + 1.
pub fn sums_hard(rt: &impl Print) {
    tried_at(
        rt,
        0,
        b"arrived 5",
        made::holds(1, 0),
        made::counts(5, 3, 0),
    );
    tried_at(
        rt,
        0,
        b"arrived 3",
        made::holds(1, 0),
        made::counts(3, 3, 0),
    );
    tried_at(
        rt,
        0,
        b"replaced 1 of a hard task",
        made::holds(1, 0),
        made::counts(5, 3, 1),
    );
    tried_at(
        rt,
        0,
        b"no job, arrived 4",
        made::empty(1),
        made::counts(4, 3, 0),
    );
    tried_at(
        rt,
        0,
        b"no job, arrived 3",
        made::empty(1),
        made::counts(3, 3, 0),
    );
}

pub fn sums_soft(rt: &impl Print) {
    tried_at(
        rt,
        1,
        b"a wrapped sum",
        made::empty(1),
        made::counts(1, 4294967295, 2),
    );
    tried_at(
        rt,
        1,
        b"a wrapped sum with a job",
        made::holds(1, 0),
        made::counts(1, 4294967295, 1),
    );
    tried_at(rt, 1, b"arrived 0", made::empty(1), made::counts(0, 0, 0));
    tried_at(
        rt,
        1,
        b"arrived 1",
        made::holds(1, 0),
        made::counts(1, 0, 0),
    );
    tried_at(
        rt,
        1,
        b"arrived 11",
        made::holds(1, 0),
        made::counts(11, 5, 5),
    );
    tried_at(
        rt,
        1,
        b"arrived 12",
        made::holds(1, 0),
        made::counts(12, 6, 5),
    );
}

// Ticks, substitutions, and nothing awaited at the last tick.
pub fn ticks(rt: &impl Print) {
    let r = midway();
    tried(rt, b"16777216 ticks", made::totalled(r, 16777216, 4));
    tried(rt, b"16777217 ticks", made::totalled(r, 16777217, 4));
    tried(rt, b"4294967295 ticks", made::totalled(r, 4294967295, 4));
}

pub fn substitutions(rt: &impl Print) {
    let r = midway();
    let w = made::awaiting(r, 1);
    tried(rt, b"10 substitutions", made::totalled(r, 10, 10));
    tried(rt, b"11 substitutions", made::totalled(r, 10, 11));
    tried(
        rt,
        b"4294967295 substitutions",
        made::totalled(r, 10, 4294967295),
    );
    tried(rt, b"11 substitutions, awaits 1", made::totalled(w, 10, 11));
    tried(rt, b"12 substitutions, awaits 1", made::totalled(w, 10, 12));
    tried(
        rt,
        b"4294967295 substitutions, awaits 1",
        made::totalled(w, 10, 4294967295),
    );
}

pub fn last_ticks(rt: &impl Print) {
    let r = midway();
    let w = made::awaiting(r, 1);
    tried(
        rt,
        b"16777215 ticks, awaits 1",
        made::totalled(w, 16777215, 4),
    );
    tried(
        rt,
        b"16777216 ticks, awaits 1",
        made::totalled(w, 16777216, 4),
    );
    tried(
        rt,
        b"16777216 ticks and substitutions",
        made::totalled(r, 16777216, 16777216),
    );
    tried(
        rt,
        b"16777215 ticks, all and one substituted",
        made::totalled(w, 16777215, 16777216),
    );
}

fn beyond(rt: &impl Print, label: &[u8], k: usize) {
    lines::put(rt, label);
    lines::put(rt, b"\n");
    tried_at(rt, k, b"age 1", made::empty(1), made::counts(0, 0, 0));
    tried_at(rt, k, b"a job", made::holds(0, 0), made::counts(0, 0, 0));
    tried_at(
        rt,
        k,
        b"a fresh job",
        made::holds(0, 0),
        made::counts(1, 0, 0),
    );
    tried_at(rt, k, b"arrived 1", made::empty(0), made::counts(1, 0, 0));
    tried_at(rt, k, b"finished 1", made::empty(0), made::counts(0, 1, 0));
    tried_at(rt, k, b"replaced 1", made::empty(0), made::counts(0, 0, 1));
    tried_at(rt, k, b"nothing", made::empty(0), made::counts(0, 0, 0));
}

// Places beyond n are zero with no job.
pub fn places(rt: &impl Print) {
    beyond(rt, b"in place 3:", 2);
    beyond(rt, b"in place 7:", 6);
}

// The last tick: an ask at 16,777,215 ticks is taken, and its report; then an ask is 20 and a report 14.
pub fn last_tick(rt: &impl Print) {
    let s = sets::example();
    let r = made::totalled(midway(), 16777215, 16777215);
    let a = show::ask(rt, b"at 16777215 ticks", s, &[1; 54], r, 1);
    let b = show::report(rt, b"at 16777215 ticks, refused", s, a, 6, false, 3);
    let c = made::placed(b, 0, made::empty(1), made::counts(4, 4, 0));
    let d = show::report(rt, b"at 16777215 ticks", s, c, 6, false, 0);
    let e = show::ask(rt, b"at 16777216 ticks", s, &[1; 54], d, 0);
    show::report(rt, b"at 16777216 ticks", s, e, 7, false, 0);
}

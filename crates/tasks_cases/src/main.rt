// Worked cases of lists, names, tasks and sets, a line each.
#![tactic(auto)]

use cases::lines::{put, put_answer, put_number};
use cases::sets::{
    V1, V2, V3, V4, V5, V6, V7, V13, V14, V15, V16, all, blank, case_of, hard, named, set, soft,
    task,
};
use tasks::sets::{Set, Task};
use tasks::{lists, sets};

// Which of 0 to 17 a list has.
fn put_values(rt: &impl Print, list: u16) {
    for v in 0..18 {
        if lists::has(list, v) {
            put_number(rt, b" ", v);
        }
    }
}

// Which bytes are characters of a name.
fn put_characters(rt: &impl Print) {
    for b in 0..=255 {
        if sets::name_byte(b) {
            put(rt, &[b]);
        }
    }
}

// What the test of a set answers.
fn put_tested(rt: &impl Print, s: Set) {
    put_answer(rt, b" states ", sets::test(s));
    put(rt, b"\n");
}

fn show(rt: &impl Print, label: &[u8], s: Set) {
    put(rt, label);
    put(rt, b":");
    put_tested(rt, s);
}

fn show_list(rt: &impl Print, list: u16) {
    put_number(rt, b"list ", list);
    put_number(rt, b": shortest ", lists::shortest(list));
    put_number(rt, b" longest ", lists::longest(list));
    put_number(rt, b" length ", lists::length(list));
    put(rt, b" values");
    put_values(rt, list);
    put(rt, b"\n");
}

fn show_locals(rt: &impl Print, label: &[u8], t: Task) {
    put(rt, label);
    put_number(rt, b": locals ", sets::locals(t));
    put(rt, b"\n");
}

fn show_name(rt: &impl Print, label: &[u8], name: [u8; 16]) {
    put(rt, b"name ");
    put(rt, label);
    put_number(rt, b": length ", sets::name_length(name));
    put_tested(rt, named(name, case_of([hard(1, V1, V1)])));
}

// One task, and a record 7.
fn beside(t: Task, last: Task) -> Set {
    let z = blank();
    set(1, [t, z, z, z, z, z, last])
}

fn list_cases(rt: &impl Print) {
    show_list(rt, 276);
    show_list(rt, 0);
    show_list(rt, V1);
    show_list(rt, V16);
    show_list(rt, V1 + V16);
    show_list(rt, 65535);
}

fn name_cases(rt: &impl Print) {
    put(rt, b"characters ");
    put_characters(rt);
    put(rt, b"\n");
    show_name(rt, b"PAIR", *b"PAIR\0\0\0\0\0\0\0\0\0\0\0\0");
    show_name(rt, b"of 16 characters", *b"AZ-09-AZ-09-AZ-9");
    show_name(rt, b"of 15 and a lower case", *b"AZ-09-AZ-09-AZ-z");
    show_name(rt, b"empty", *b"\0\0\0\0\0\0\0\0\0\0\0\0\0\0\0\0");
    show_name(rt, b"with a zero first", *b"\0PAIR\0\0\0\0\0\0\0\0\0\0\0");
    show_name(rt, b"with a zero inside", *b"PA\0IR\0\0\0\0\0\0\0\0\0\0\0");
    show_name(rt, b"with a zero 15th", *b"AZ-09-AZ-09-AZ\09");
    show_name(rt, b"in lower case", *b"pair\0\0\0\0\0\0\0\0\0\0\0\0");
    show_name(rt, b"with a space", *b"PA IR\0\0\0\0\0\0\0\0\0\0\0");
}

fn locals_cases(rt: &impl Print) {
    show_locals(rt, b"hard 2 1 3", hard(2, V1, V3));
    show_locals(rt, b"soft 2 1,2 3", soft(2, V1 + V2, V3));
    show_locals(rt, b"hard 16 16 16", hard(16, V16, V16));
    show_locals(rt, b"a record of zeros", blank());
}

fn record_cases(rt: &impl Print) {
    show(rt, b"kind 0", case_of([task(0, 1, V1, V1)]));
    show(rt, b"kind 1", case_of([task(1, 1, V1, V1)]));
    show(rt, b"kind 2", case_of([task(2, 1, V1, V1)]));
    show(rt, b"kind 255", case_of([task(255, 1, V1, V1)]));
    show(rt, b"deadline 0", case_of([hard(0, V1, V16)]));
    show(rt, b"deadline 1", case_of([hard(1, V1, V16)]));
    show(rt, b"deadline 16", case_of([hard(16, V1, V16)]));
    show(rt, b"deadline 17", case_of([hard(17, V1, V16)]));
    show(rt, b"deadline 255", case_of([hard(255, V1, V16)]));
    show(rt, b"no run times", case_of([hard(1, 0, V1)]));
    show(rt, b"no gaps", case_of([hard(1, V1, 0)]));
}

fn count_cases(rt: &impl Print) {
    show(rt, b"count 0 of records of zeros", all(0, blank()));
    show(rt, b"count 0 of soft 1 1 1", all(0, soft(1, V1, V1)));
    show(rt, b"count 7 of soft 1 1 1", all(7, soft(1, V1, V1)));
    show(rt, b"count 8 of soft 1 1 1", all(8, soft(1, V1, V1)));
    show(rt, b"count 255 of soft 1 1 1", all(255, soft(1, V1, V1)));
}

fn rule_cases(rt: &impl Print) {
    show(rt, b"hard 3 3 3", case_of([hard(3, V3, V3)]));
    show(rt, b"soft 2 1,2 3,4", case_of([soft(2, V1 + V2, V3 + V4)]));
    show(rt, b"hard 2 3 3", case_of([hard(2, V3, V3)]));
    show(rt, b"soft 2 1,3 3", case_of([soft(2, V1 + V3, V3)]));
    show(rt, b"hard 2 1 1", case_of([hard(2, V1, V1)]));
    show(rt, b"soft 2 1 1,4", case_of([soft(2, V1, V1 + V4)]));
}

// Records that are refused with 3, 4 and 5, and one that is taken.
fn order_cases(rt: &impl Print) {
    let bad = hard(2, 0, V3);
    let long = hard(2, V3, V3);
    let early = hard(2, V1, V1);
    let good = hard(2, V1, V3);
    show(rt, b"kind 2 and 2 3 1", case_of([task(2, 2, V3, V1)]));
    show(rt, b"hard 2 3 1", case_of([hard(2, V3, V1)]));
    show(rt, b"5 in task 1, 4 in task 2", case_of([early, long]));
    show(rt, b"5 in task 1, 3 in task 2", case_of([early, bad]));
    show(rt, b"4 in task 1, 3 in task 2", case_of([long, bad]));
    show(rt, b"4 in task 2", case_of([good, long]));
    show(rt, b"5 in task 3", case_of([good, good, early]));
    show(rt, b"4 in task 1, no name", named([0; 16], case_of([long])));
    show(rt, b"4 in task 1, count 8", all(8, long));
    show(rt, b"4 in task 1, count 0", all(0, long));
}

fn beyond_cases(rt: &impl Print) {
    let good = hard(2, V1, V3);
    show(rt, b"record 7 of kind 1", beside(good, task(1, 0, 0, 0)));
    show(
        rt,
        b"record 7 of deadline 1",
        beside(good, task(0, 1, 0, 0)),
    );
    show(
        rt,
        b"record 7 with a run time",
        beside(good, task(0, 0, V1, 0)),
    );
    show(rt, b"record 7 with a gap", beside(good, task(0, 0, 0, V16)));
    show(rt, b"count 1 of seven", all(1, good));
    show(rt, b"count 6 of seven", all(6, good));
    show(rt, b"record 2 of two is zero", case_of([good, blank()]));
    show(
        rt,
        b"4 in task 1, record 7 not zero",
        beside(hard(2, V3, V3), good),
    );
    show(
        rt,
        b"5 in task 1, record 7 not zero",
        beside(hard(2, V1, V1), good),
    );
}

fn state_cases(rt: &impl Print) {
    let large = hard(16, V16, V16);
    show(
        rt,
        b"two of hard 2 1 2",
        case_of([hard(2, V1, V2), hard(2, V1, V2)]),
    );
    show(
        rt,
        b"hard 2 1 3, soft 2 1,2 3",
        case_of([hard(2, V1, V3), soft(2, V1 + V2, V3)]),
    );
    show(
        rt,
        b"14,16 and 1,5 and 4,5",
        case_of([hard(14, V14, V16), hard(1, V1, V5), hard(4, V4, V5)]),
    );
    show(
        rt,
        b"4,7 and 4,7 and 6,7",
        case_of([hard(4, V4, V7), hard(4, V4, V7), hard(6, V6, V7)]),
    );
    show(rt, b"16,16 and 13,16", case_of([large, hard(13, V13, V16)]));
    show(
        rt,
        b"two of hard 15 15 16",
        case_of([hard(15, V15, V16), hard(15, V15, V16)]),
    );
    show(
        rt,
        b"four of hard 15 15 16",
        case_of([hard(15, V15, V16); 4]),
    );
    show(rt, b"seven of hard 16 16 16", all(7, large));
    show(rt, b"count 4 of seven of hard 16 16 16", all(4, large));
    show(
        rt,
        b"two of hard 16 16 16, 5 in task 3",
        case_of([large, large, hard(2, V1, V1)]),
    );
    show(
        rt,
        b"seven of hard 16 16 16, no name",
        named([0; 16], all(7, large)),
    );
}

fn main(rt: HostRuntime) {
    list_cases(&rt);
    name_cases(&rt);
    locals_cases(&rt);
    record_cases(&rt);
    count_cases(&rt);
    rule_cases(&rt);
    order_cases(&rt);
    beyond_cases(&rt);
    state_cases(&rt);
}

// Worked cases of the builder and the tester, a line each.
#![tactic(auto)]

use cases::lines::{checksum, put, put_bytes, put_label, put_number, put_refusal, put_taken};
use cases::sets::{V1, V2, V3, V4, V5, V13, V14, V16, all, case_of, example, hard, pair, soft};
use shield::builder::Built;
use shield::{builder, tester};
use tasks::refusals::Refusal;
use tasks::sets::Set;

fn put_built(rt: &impl Print, built: Result<Built, Refusal>) {
    match built {
        Ok(b) => {
            put_number(rt, b" safe ", b.safe);
            put_number(rt, b" rounds ", b.rounds);
            put_number(rt, b" start ", b.start);
        }
        Err(f) => put_refusal(rt, f.number(), f.place),
    }
}

// What the builder answers, and the buffers that it was lent.
fn show_by<F: Fn(&[u8])>(
    rt: &impl Print,
    label: &[u8],
    s: Set,
    table: &mut [u8],
    work: &mut [u8],
    put_buffer: F,
)
    requires { F.IsAlwaysCallable put_buffer }
{
    put_label(rt, b"build ", label);
    put_built(rt, builder::build(s, table, work));
    put(rt, b" table");
    put_buffer(table);
    put(rt, b" work");
    put_buffer(work);
    put(rt, b"\n");
}

// With every byte.
fn show(rt: &impl Print, label: &[u8], s: Set, table: &mut [u8], work: &mut [u8]) {
    show_by(rt, label, s, table, work, |buf| put_bytes(rt, buf));
}

// For long buffers, with a checksum in place of the bytes.
fn show_long(rt: &impl Print, label: &[u8], s: Set, table: &mut [u8], work: &mut [u8]) {
    show_by(rt, label, s, table, work, |buf| {
        put_number(rt, b" sum ", checksum(buf))
    });
}

fn show_test(rt: &impl Print, label: &[u8], s: Set, table: &[u8]) {
    put_label(rt, b"test ", label);
    put_taken(rt, b" passes", tester::test(s, table));
    put(rt, b"\n");
}

// The figures with a table.
fn figure_cases(rt: &impl Print) {
    show(rt, b"PAIR", pair(), &mut [7; 16], &mut [9; 16]);
    show(
        rt,
        b"hard 1 1 1",
        case_of([hard(1, V1, V1)]),
        &mut [7; 2],
        &mut [9; 2],
    );
    show(
        rt,
        b"hard 2 1 3, soft 2 1,2 3",
        example(),
        &mut [7; 54],
        &mut [9; 54],
    );
}

// Entries 0, 21, 26, 32 and 4 of the example.
fn example_entries(rt: &impl Print) {
    let mut table = [7; 54];
    let mut work = [9; 54];
    let _ = builder::build(example(), &mut table, &mut work);
    put(rt, b"hard 2 1 3, soft 2 1,2 3: entries at 0 21 26 32 4");
    put_bytes(rt, &[table[0], table[21], table[26], table[32], table[4]]);
    put(rt, b"\n");
}

// No safe schedule; the bytes beyond S stay.
fn refused_cases(rt: &impl Print) {
    let a = hard(3, V2, V4);
    show(
        rt,
        b"two of hard 3 2 4",
        case_of([a, a]),
        &mut [7; 145],
        &mut [9; 146],
    );
    show(
        rt,
        b"hard 2 1,2 2, hard 2 1 2",
        case_of([hard(2, V1 + V2, V2), hard(2, V1, V2)]),
        &mut [7; 26],
        &mut [9; 25],
    );
    show(
        rt,
        b"hard 3 1,2 3, hard 1 1 1,2",
        case_of([hard(3, V1 + V2, V3), hard(1, V1, V1 + V2)]),
        &mut [7; 36],
        &mut [9; 36],
    );
}

// Overdue jobs, rounds, and a task 7.
fn round_cases(rt: &impl Print) {
    show(
        rt,
        b"hard 1 1 3",
        case_of([hard(1, V1, V3)]),
        &mut [7; 6],
        &mut [9; 6],
    );
    show(
        rt,
        b"hard 4 2 4, hard 2 1 2",
        case_of([hard(4, V2, V4), hard(2, V1, V2)]),
        &mut [7; 48],
        &mut [9; 48],
    );
    show(
        rt,
        b"seven of soft 1 1 1",
        all(7, soft(1, V1, V1)),
        &mut [7; 128],
        &mut [9; 128],
    );
}

// Longer and shorter buffers, and what they held before.
fn buffer_cases(rt: &impl Print) {
    show(
        rt,
        b"PAIR, 18 and 19 bytes",
        pair(),
        &mut [7; 18],
        &mut [9; 19],
    );
    show(
        rt,
        b"PAIR, zeros before",
        pair(),
        &mut [0; 16],
        &mut [0; 16],
    );
    show(
        rt,
        b"PAIR, 255 before",
        pair(),
        &mut [255; 17],
        &mut [255; 17],
    );
    show(
        rt,
        b"PAIR, 15 and 16 bytes",
        pair(),
        &mut [7; 15],
        &mut [9; 16],
    );
    show(
        rt,
        b"PAIR, 16 and 15 bytes",
        pair(),
        &mut [7; 16],
        &mut [9; 15],
    );
    show(rt, b"PAIR, no bytes", pair(), &mut [7; 0], &mut [9; 0]);
}

// The set's own test comes first.
fn set_cases(rt: &impl Print) {
    let long = case_of([hard(2, V3, V3)]);
    let large = case_of([hard(16, V16, V16), hard(13, V13, V16)]);
    show(rt, b"hard 2 3 3, no bytes", long, &mut [7; 0], &mut [9; 0]);
    show(rt, b"hard 2 3 3", long, &mut [7; 12], &mut [9; 12]);
    show(
        rt,
        b"hard 16 16 16, hard 13 13 16",
        large,
        &mut [7; 3],
        &mut [9; 3],
    );
    show_test(rt, b"hard 2 3 3, no bytes", long, &[7; 0]);
    show_test(rt, b"hard 16 16 16, hard 13 13 16", large, &[7; 3]);
}

// The built table of PAIR, with v at one place.
fn pair_with(at: usize, v: u8) -> [u8; 16] {
    let mut table = [6, 5, 2, 5, 3, 1, 2, 1, 4, 4, 0, 4, 3, 1, 2, 1];
    if let Some(x) = table.get_mut(at) {
        *x = v;
    }
    table
}

fn test_pair(rt: &impl Print, label: &[u8], at: usize, v: u8) {
    show_test(rt, label, pair(), &pair_with(at, v));
}

fn pair_tests(rt: &impl Print) {
    show_test(rt, b"PAIR, every entry 1", pair(), &[1; 16]);
    show_test(rt, b"PAIR, every entry 0", pair(), &[0; 16]);
    show_test(rt, b"PAIR, every entry 255", pair(), &[255; 16]);
    test_pair(rt, b"PAIR as built", 10, 0);
    test_pair(rt, b"PAIR, 0 at 0", 0, 0);
    test_pair(rt, b"PAIR, 2 at 0", 0, 2);
    test_pair(rt, b"PAIR, 7 at 0", 0, 7);
    test_pair(rt, b"PAIR, 0 at 8", 8, 0);
    test_pair(rt, b"PAIR, 1 at 10", 10, 1);
    test_pair(rt, b"PAIR, 0 at 15", 15, 0);
    test_pair(rt, b"PAIR, 8 at 15", 15, 8);
    test_pair(rt, b"PAIR, 128 at 15", 15, 128);
    test_pair(rt, b"PAIR, 2 at 15", 15, 2);
}

// Longer and shorter tables.
fn length_tests(rt: &impl Print) {
    show_test(rt, b"PAIR, 15 bytes", pair(), &[0; 15]);
    show_test(rt, b"PAIR, no bytes", pair(), &[0; 0]);
    show_test(
        rt,
        b"PAIR as built, 255 beyond",
        pair(),
        &[6, 5, 2, 5, 3, 1, 2, 1, 4, 4, 0, 4, 3, 1, 2, 1, 255, 255],
    );
}

// Early finishes, arrivals that stay away, and a task 7.
fn outcome_tests(rt: &impl Print) {
    let early = case_of([hard(2, V1 + V2, V2)]);
    let away = case_of([hard(1, V1, V1 + V2)]);
    let many = all(7, soft(1, V1, V1));
    show_test(rt, b"hard 2 1,2 2, 2 0 0 0 2 0", early, &[2, 0, 0, 0, 2, 0]);
    show_test(rt, b"hard 2 1,2 2, 2 0 0 0 2 1", early, &[2, 0, 0, 0, 2, 1]);
    show_test(rt, b"hard 1 1 1,2, 2 0 0 0", away, &[2, 0, 0, 0]);
    show_test(rt, b"hard 1 1 1,2, 2 0 0 1", away, &[2, 0, 0, 1]);
    show_test(
        rt,
        b"seven of soft 1 1 1, every entry 255",
        many,
        &[255; 128],
    );
    show_test(rt, b"seven of soft 1 1 1, every entry 1", many, &[1; 128]);
    show_test(
        rt,
        b"seven of soft 1 1 1, every entry 128",
        many,
        &[128; 128],
    );
}

// 60,000 states, with a safe schedule and without, built and tested.
fn large_cases(rt: &impl Print) {
    let mut table = [7; 60000];
    let mut work = [9; 60000];
    let a = case_of([soft(14, V14, V16), hard(1, V1, V5), hard(5, V1 + V4, V5)]);
    let b = case_of([hard(14, V14, V16), hard(1, V1, V5), hard(4, V4, V5)]);
    show_long(
        rt,
        b"soft 14 14 16, hard 1 1 5, hard 5 1,4 5",
        a,
        &mut table,
        &mut work,
    );
    show_test(rt, b"soft 14 14 16, hard 1 1 5, hard 5 1,4 5", a, &table);
    table[59999] = 255;
    show_test(
        rt,
        b"soft 14 14 16, hard 1 1 5, hard 5 1,4 5, 255 at 59999",
        a,
        &table,
    );
    show_long(
        rt,
        b"hard 14 14 16, hard 1 1 5, hard 4 4 5",
        b,
        &mut table,
        &mut work,
    );
}

fn main(rt: HostRuntime) {
    figure_cases(&rt);
    example_entries(&rt);
    refused_cases(&rt);
    round_cases(&rt);
    buffer_cases(&rt);
    set_cases(&rt);
    pair_tests(&rt);
    length_tests(&rt);
    outcome_tests(&rt);
    large_cases(&rt);
}

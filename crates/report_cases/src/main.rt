// Worked reports: what the call answers, how many bytes of output, table and work have changed, and the report.
#![tactic(auto)]

ghost use Rattle.std.specs.Prelude.{◌≡◌, ◌≤◌, length, take};

use cases::lines::{put, put_answer, put_number};

const PAIR: [u8; 31] = *b"set PAIR\nhard 2 1 2\nhard 2 1 2\n";

// Every buffer is dots before a call: how many bytes it has up to the last that is none.
fn changed(buf: &[u8]) -> usize
    ensures in_bounds { result ≤ length buf.now }
    ensures prefix { result ≡ length (take result buf.now) }
{
    buf.iter().rposition(|b| *b != b'.').map_or(0, |i| i + 1)
}

fn show(
    rt: &impl Print,
    label: &[u8],
    sheet: &[u8],
    table: &mut [u8],
    work: &mut [u8],
    output: &mut [u8],
) {
    put(rt, label);
    put(rt, b":");
    put_answer(
        rt,
        b" length ",
        reporter::report(sheet, table, work, output),
    );
    let n = changed(output);
    put_number(rt, b" changed ", n);
    put_number(rt, b" ", changed(table));
    put_number(rt, b" ", changed(work));
    put(rt, b"\n");
    put(rt, &output[..n]);
}

// With room enough for 128 states.
fn show_small(rt: &impl Print, label: &[u8], sheet: &[u8]) {
    let mut table = [b'.'; 128];
    let mut work = [b'.'; 128];
    let mut output = [b'.'; 390];
    show(rt, label, sheet, &mut table, &mut work, &mut output);
}

// Rows: two whole ones, one that is short, and a last one that is.
fn row_cases(rt: &impl Print) {
    show_small(rt, b"two tasks", &PAIR);
    show_small(rt, b"one row", b"set ONE\nhard 1 1 1\n");
    show_small(
        rt,
        b"a shorter last row",
        b"set EXAMPLE-1\nhard 2 1 3\nsoft 2 1,2 3\n",
    );
}

// At most 64 states, and more.
fn state_cases(rt: &impl Print) {
    show_small(
        rt,
        b"64 states",
        b"set SWEEP\nhard 2 1 2\nhard 3 1 4\nsoft 1 1 1\n",
    );
    show_small(
        rt,
        b"72 states",
        b"set SIXTEEN-LETTERS-\nhard 2 1 3\nsoft 3 2 4\n",
    );
}

// Entries of three digits: tasks 6 and 7.
fn entry_cases(rt: &impl Print) {
    show_small(
        rt,
        b"six tasks",
        b"set SIX\nsoft 1 1 1\nsoft 1 1 1\nsoft 1 1 1\nsoft 1 1 1\nsoft 1 1 1\nsoft 1 1 1\n",
    );
    show_small(
        rt,
        b"seven tasks",
        b"set SEVEN\nsoft 1 1 1\nsoft 1 1 1\nsoft 1 1 1\nsoft 1 1 1\nsoft 1 1 1\nsoft 1 1 1\nsoft 1 1 1\n",
    );
}

// Refusals of a text: 1 and 2.
fn form_cases(rt: &impl Print) {
    show_small(rt, b"1,025 bytes", &[b'A'; 1025]);
    show_small(rt, b"1,024 bytes", &[b'A'; 1024]);
    show_small(rt, b"no bytes", b"");
    show_small(rt, b"no such deadline", b"set PAIR\nhard 17");
    show_small(rt, b"no last LF", b"set A\nhard 1 1 1");
}

// Refusals of a set: 3, 4, 5, 6 and 8.
fn set_cases(rt: &impl Print) {
    show_small(rt, b"list not rising", b"set A\nhard 1 1 1\nhard 2 2,1 2\n");
    show_small(
        rt,
        b"run time above deadline",
        b"set A\nhard 1 1 1\nhard 2 3 3\n",
    );
    show_small(
        rt,
        b"gap below deadline",
        b"set A\nhard 2 1 1\nhard 2 3 3\n",
    );
    show_small(
        rt,
        b"60,928 states",
        b"set A\nhard 16 16 16\nhard 13 13 16\n",
    );
    show_small(
        rt,
        b"no safe schedule",
        b"set A\nhard 2 1,2 2\nhard 2 1 2\n",
    );
}

// An output without room: no byte of anything changes.
fn output_cases(rt: &impl Print) {
    let mut table = [b'.'; 16];
    let mut work = [b'.'; 16];
    let mut output = [b'.'; 389];
    show(
        rt,
        b"output of 389 bytes",
        &PAIR,
        &mut table,
        &mut work,
        &mut output,
    );
    show(
        rt,
        b"output of 389 bytes, no sheet",
        b"",
        &mut table,
        &mut work,
        &mut output,
    );
    show(rt, b"no output", &PAIR, &mut table, &mut work, &mut []);
}

// A table and a work buffer that are too short, and both just long enough.
fn buffer_cases(rt: &impl Print) {
    let mut short = [b'.'; 15];
    let mut exact = [b'.'; 16];
    let mut work = [b'.'; 16];
    show(
        rt,
        b"table of 15 bytes",
        &PAIR,
        &mut short,
        &mut exact,
        &mut [b'.'; 391],
    );
    show(
        rt,
        b"work of 15 bytes",
        &PAIR,
        &mut exact,
        &mut short,
        &mut [b'.'; 391],
    );
    show(
        rt,
        b"table and work of 16 bytes",
        &PAIR,
        &mut exact,
        &mut work,
        &mut [b'.'; 391],
    );
}

// The most states that a set may have.
fn large_cases(rt: &impl Print) {
    let mut table = [b'.'; 60000];
    let mut work = [b'.'; 60000];
    let mut output = [b'.'; 390];
    show(
        rt,
        b"60,000 states",
        b"set LARGE\nsoft 14 14 16\nhard 1 1 5\nhard 5 1,4 5\n",
        &mut table,
        &mut work,
        &mut output,
    );
}

fn main(rt: HostRuntime) {
    row_cases(&rt);
    state_cases(&rt);
    entry_cases(&rt);
    form_cases(&rt);
    set_cases(&rt);
    output_cases(&rt);
    buffer_cases(&rt);
    large_cases(&rt);
}

// The worked cases of sheets. Standard input has the texts to read, each after a label and `|` and before `~`. Of each the answer, the
// reader's place and the set beside the answer are printed and, where the set was taken, what is written of it.
#![tactic(auto)]

ghost use Rattle.std.specs.Prelude.{◌≡◌, ◌<◌, ◌==◌, length, position};

use cases::lines::{put, put_answer, put_number, put_taken};
use tasks::sets::Set;

// What writing a set answers, and the buffer after it.
fn write(rt: &impl Print, set: Set, buf: &mut [u8]) {
    put(rt, b"write");
    put_answer(rt, b" length ", sheet::write(set, buf));
    put(rt, b"\n");
    put(rt, buf);
    put(rt, b"\n");
}

// The first character of the name, the count, and the first task's record.
fn put_set(rt: &impl Print, set: Set) {
    let t = set.tasks[0];
    put_number(rt, b" set ", set.name[0]);
    put_number(rt, b" ", set.count);
    put_number(rt, b" ", t.kind);
    put_number(rt, b" ", t.deadline);
    put_number(rt, b" ", t.runs);
    put_number(rt, b" ", t.gaps);
}

// A set that is taken is written back, into a buffer with room for more; nothing of a refused one is.
fn read(rt: &impl Print, text: &[u8]) {
    let r = sheet::read(text);
    put_taken(rt, b" taken", r.answer);
    put_number(rt, b" at ", sheet::place_after(text, 0));
    put_set(rt, r.set);
    put(rt, b"\n");
    if r.answer.is_ok() {
        write(rt, r.set, &mut [b'.'; 200]);
    }
}

// The first place that has the byte.
fn find(text: &[u8], b: u8) -> Option<usize>
    ensures { result ≡ position (λ c. c == b) text.now }
{
    text.iter().position(|c| *c == b)
}

// The first case, and those behind it.
fn read_one<'a>(rt: &impl Print, cases: &'a [u8]) -> &'a [u8]
    requires { 0 < length cases.now }
    ensures { length result.now < length cases.now }
{
    let bar = find(cases, b'|');
    put(rt, &cases[..bar.unwrap_or(cases.len())]);
    put(rt, b":");
    let Some(bar) = bar else {
        return &[];
    };
    let text = &cases[bar + 1..];
    let end = find(text, b'~').unwrap_or(text.len());
    read(rt, &text[..end]);
    &text[(end + 1).min(text.len())..]
}

// A `while`, and no `split` at `~`: a label may hold one.
fn read_all(rt: &impl Print, cases: &[u8]) {
    let mut left = cases;
    while !left.is_empty() {
        left = read_one(rt, left);
    }
}

// Into buffers of 32, 31, 30 bytes and one.
fn write_lengths(rt: &impl Print, set: Set) {
    let mut longer = [b'.'; 32];
    write(rt, set, &mut longer);
    let mut exact = [b'.'; 31];
    write(rt, set, &mut exact);
    let mut shorter = [b'.'; 30];
    write(rt, set, &mut shorter);
    let mut shortest = [b'.'; 1];
    write(rt, set, &mut shortest);
}

// Sets that do not pass their test, whatever the buffer: a count, a record beyond the count, a name.
fn write_refused(rt: &impl Print, set: Set) {
    let mut buf = [b'.'; 4];
    let mut s = set;
    s.name[5] = b'a';
    write(rt, s, &mut buf);
    s.name[5] = 0;
    s.tasks[6].gaps = 1;
    write(rt, s, &mut buf);
    s.count = 8;
    write(rt, s, &mut buf);
}

fn main(rt: HostRuntime) {
    let mut cases = [0u8; 8192];
    let n = reading::fill(&mut rt.stdin(), &mut cases);
    read_all(&rt, &cases[..n]);
    let set = sheet::read(b"set PAIR\nhard 2 1 2\nhard 2 1 2\n").set;
    write_lengths(&rt, set);
    write_refused(&rt, set);
}

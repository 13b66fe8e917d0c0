// Parts of a line, on standard output.
ghost use Rattle.std.specs.Prelude.{◌≡◌};
ghost use Rattle.cases.specs.Sums.{next_sum, sum_on};

pub use printing::{put, put_number};
use std::fmt::Display;
use tasks::refusals::Refusal;

// What a line is of: a call, and the case's label.
pub fn put_label(rt: &impl Print, call: &[u8], label: &[u8]) {
    put(rt, call);
    put(rt, label);
    put(rt, b":");
}

// Number and place, and no `Refusal`: any refusal's line can be printed, as `put_refused_line` promises.
pub fn put_refusal(rt: &impl Print, number: u8, place: u32) {
    put_number(rt, b" refused ", number);
    put_number(rt, b" place ", place);
}

// A word for what is taken, or the refusal.
pub fn put_taken(rt: &impl Print, word: &[u8], answer: Result<(), Refusal>) {
    match answer {
        Ok(()) => put(rt, word),
        Err(f) => put_refusal(rt, f.number(), f.place),
    }
}

// The number that is answered, after a word, or the refusal.
pub fn put_answer<T: Copy + Display>(rt: &impl Print, word: &[u8], answer: Result<T, Refusal>) {
    match answer {
        Ok(n) => put_number(rt, word, n),
        Err(f) => put_refusal(rt, f.number(), f.place),
    }
}

// Every byte of a buffer.
pub fn put_bytes(rt: &impl Print, buf: &[u8]) {
    for b in buf {
        put_number(rt, b" ", *b);
    }
}

fn next_sum(sum: u32, b: u8) -> u32
    ensures { result ≡ next_sum sum b }
{
    ((sum % 16777213) * 251 + u32::from(b)) % 16777213
}

// A number that stands for the bytes of a long buffer, in their order.
pub fn checksum(buf: &[u8]) -> u32
    ensures { result ≡ sum_on 0 buf.now }
{
    buf.iter().fold(0, |sum, b| next_sum(sum, *b))
}

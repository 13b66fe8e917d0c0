// The words of an answer, on standard output.
use crate::bytes::first;
use printing::{put, put_number};
use std::fmt::Display;

pub fn ok(rt: &impl Print) {
    put(rt, b"ok\n");
}

// The last number of an answer.
pub fn last(rt: &impl Print, before: &[u8], n: impl Copy + Display) {
    put_number(rt, before, n);
    put(rt, b"\n");
}

// Two hexadecimal digits a byte. A write that fails is passed over.
pub fn bytes(rt: &impl Print, buf: &[u8]) {
    for b in buf {
        let _ = print!(rt; "{b:02x}");
    }
}

// So many first bytes of a buffer, after their number.
pub fn written(rt: &impl Print, before: &[u8], n: u32, buf: &[u8]) {
    put_number(rt, before, n);
    put(rt, b" ");
    bytes(rt, first(n, buf));
    put(rt, b"\n");
}

// The answer to a mangled line names it.
pub fn mangled(rt: &impl Print, line: u64) {
    last(rt, b"? ", line);
}

// Number and place, and no `Refusal`: so this room rests on no room of sets.
pub fn refused(rt: &impl Print, number: u8, place: u32) {
    put_number(rt, b"refused ", number);
    last(rt, b" ", place);
}

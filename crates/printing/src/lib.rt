// What the programs that print share: bytes and numbers on standard output. A write that fails is passed over.
#![tactic(auto)]

use std::fmt::Display;
use std::io;
use std::io::Write;

pub fn put(rt: &impl Print, text: &[u8]) {
    let _ = io::writer(rt).write_all(text);
}

// A number, after the words or the space before it.
pub fn put_number(rt: &impl Print, text: &[u8], n: impl Copy + Display) {
    put(rt, text);
    let _ = print!(rt; "{n}");
}

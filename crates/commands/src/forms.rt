// The form that a place of a command asks for, and the value that a word has in it.
ghost use Rattle.std.specs.Prelude.{◌≡◌, ◌-◌, ◌≤◌, min, get_or};
ghost use Rattle.commands.specs.Forms.{buffer_range_of, range_of, asks_bytes, value_of, kept};

use crate::buffers::Lengths;
use crate::{buffers, hexadecimal, numbers};
use std::ops::Range;

// The values of a command's words after the first: 0 for a fixed word, a buffer's number, a number, or a number of bytes.
#[derive(Clone, Copy, Debug, PartialEq, Eq)]
pub struct Values {
    pub first: u32,
    pub second: u32,
    pub third: u32,
}

// The first byte of a form, which tells it; 0 where the form is empty, as `value_of` has it.
// A byte, and no enum: the page's own letters are compared as they stand.
fn letter_of(form: &[u8]) -> u8
    ensures { result ≡ get_or form.now 0 0 }
{
    form.first().copied().unwrap_or(0)
}

// The lesser of a and b - c, which is 0 where c is above b.
fn least_left(a: u32, b: u32, c: u32) -> u64
    ensures value { result ≡ min a (b - c) }
    ensures small { result ≤ 4294967295 }
{
    u64::from(a.min(b.saturating_sub(c)))
}

// The range of a place whose letter is known, after the values of the words before it.
#[tactic(auto, unfolding(crate::specs::Forms::range_of))]
fn limits(letter: u8, lengths: Lengths, vs: Values) -> Range<u64>
    ensures value { result ≡ range_of lengths vs letter }
    ensures small { result.end ≤ 4294967296 }
{
    match letter {
        b'I' => 1..8,
        b'F' => 0..2,
        b'B' => 0..256,
        b'H' => 0..65536,
        b'W' => 0..4294967296,
        b'N' => 16..17,
        _ => buffer_limits(letter, lengths, vs),
    }
}

// The same, of a place that a buffer's length or most limits; any other letter takes nothing (`buffer_range_of` has an empty range there, and no Option).
#[tactic(auto, unfolding(crate::specs::Forms::buffer_range_of))]
fn buffer_limits(letter: u8, lengths: Lengths, vs: Values) -> Range<u64>
    ensures value { result ≡ buffer_range_of lengths vs letter }
    ensures small { result.end ≤ 4294967296 }
{
    let buffer = vs.first;
    match letter {
        b'L' => 0..u64::from(buffers::most(buffer)) + 1,
        b'O' => 0..u64::from(buffers::length(lengths, buffer)),
        b'C' => 1..least_left(256, buffers::length(lengths, buffer), vs.second) + 1,
        b'T' => 1..least_left(125, buffers::TEXT_MOST, lengths.text) + 1,
        _ => 1..0,
    }
}

// Whether a letter asks for bytes.
#[tactic(auto, unfolding(crate::specs::Forms::asks_bytes))]
fn is_bytes(letter: u8) -> bool
    ensures { result ≡ asks_bytes letter }
{
    matches!(letter, b'N' | b'T')
}

// The value of a word in a form: a fixed word is in lower case, any other form is told by its letter.
// `lengths` and `vs`, and no struct of both: `value_of` and `range_of` take them apart, and each word changes `vs` alone.
#[tactic(auto, unfolding(crate::specs::Forms::value_of, crate::specs::Forms::letter_value))]
pub(crate) fn value(form: &[u8], word: &[u8], lengths: Lengths, vs: Values) -> Option<u32>
    ensures { result ≡ value_of lengths vs form.now word.now }
{
    let letter = letter_of(form);
    if b'a' <= letter {
        return (form == word).then_some(0);
    }
    if letter == b'U' {
        return buffers::named(word);
    }
    let r = limits(letter, lengths, vs);
    if is_bytes(letter) {
        return hexadecimal::count(word, r);
    }
    numbers::number(word, r)
}

// The values with that of the word at a place, the command's first word being at 0.
pub(crate) fn keep(vs: Values, place: usize, v: u32) -> Values
    ensures { result ≡ kept vs place v }
{
    match place {
        1 => Values { first: v, ..vs },
        2 => Values { second: v, ..vs },
        3 => Values { third: v, ..vs },
        _ => vs,
    }
}

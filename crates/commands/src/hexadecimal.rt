// Bytes: an even number of hexadecimal digits, two a byte, the high digit first.
ghost use Rattle.std.specs.Prelude.{◌≡◌, ◌<◌, ◌≤◌, IfSome};
ghost use Rattle.commands.specs.Words.{hex_digit, is_hex, each, bytes_in, byte_of, byte_at};

use std::ops::Range;

// The value of a digit.
#[tactic(auto, unfolding(crate::specs::Words::hex_digit, crate::specs::Words::digit))]
fn value(b: u8) -> Option<u8>
    ensures value { result ≡ hex_digit b }
    ensures small { IfSome result (λ v. v < 16) }
{
    match b {
        b'0'..=b'9' => Some(b - b'0'),
        b'a'..=b'f' => Some(b - b'a' + 10),
        _ => None,
    }
}

// Whether every byte is a digit.
#[tactic(auto, using(crate::proofs::WordLaws::each_is))]
fn is_hexadecimal(word: &[u8]) -> bool
    ensures { result ≡ each is_hex word.now }
{
    word.iter().all(|b| value(*b).is_some())
}

// How many bytes a word says, if that is in the range.
#[tactic(auto, using(crate::proofs::WordLaws::bytes_digits, crate::proofs::WordLaws::bytes_odd, crate::proofs::WordLaws::bytes_low, crate::proofs::WordLaws::bytes_high, crate::proofs::WordLaws::bytes_taken))]
pub(crate) fn count(word: &[u8], r: Range<u64>) -> Option<u32>
    requires { r.end ≤ 4294967296 }
    ensures { result ≡ bytes_in r.start r.end word.now }
{
    if !is_hexadecimal(word) || word.len() % 2 == 1 {
        return None;
    }
    let n = (word.len() / 2) as u64;
    if r.contains(&n) { Some(n as u32) } else { None }
}

// The byte that two digits say, 0 where they say none.
// 0, and no Option: docs/PROMISES.md has `byte` answer `byte_at`, which is 0 there.
fn joined(high: Option<u8>, low: Option<u8>) -> u8
    requires { IfSome high (λ v. v < 16) × IfSome low (λ v. v < 16) }
    ensures { result ≡ byte_of high low }
{
    match (high, low) {
        (Some(high), Some(low)) => high * 16 + low,
        _ => 0,
    }
}

// Byte k that a word says, 0 where it says none, as `byte_at` has it.
#[tactic(auto, unfolding(crate::specs::Words::byte_at), using(crate::proofs::WordLaws::byte_beyond))]
pub fn byte(word: &[u8], k: usize) -> u8
    ensures { result ≡ byte_at word.now k }
{
    if word.len() / 2 <= k {
        return 0;
    }
    joined(value(word[2 * k]), value(word[2 * k + 1]))
}

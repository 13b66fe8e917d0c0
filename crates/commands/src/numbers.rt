// Numbers: decimal digits without sign and without leading zeros, within a range.
ghost use Rattle.std.specs.Prelude.{◌≡◌, ◌+◌, ◌-◌, ◌*◌, ◌≤◌};
ghost use Rattle.commands.specs.Words.{digit, well_begun, number_in};

use std::ops::Range;

// Whether a byte is a decimal digit.
#[tactic(auto, unfolding(crate::specs::Words::digit))]
fn is_digit(b: u8) -> bool
    ensures { result ≡ digit b }
{
    matches!(b, b'0'..=b'9')
}

// Whether a word has a byte, and no leading zero.
#[tactic(auto, using(crate::proofs::WordLaws::begun_none, crate::proofs::WordLaws::begun_one, crate::proofs::WordLaws::begun_more))]
fn is_well_begun(word: &[u8]) -> bool
    ensures { result ≡ well_begun word.now }
{
    match word {
        [] => false,
        [_] => true,
        [b, ..] => *b != b'0',
    }
}

// The number with one digit more.
fn longer(v: u64, b: u8) -> u64
    requires { (v ≤ 4294967295) × (48 ≤ b) }
    ensures { result ≡ v * 10 + (b - 48) }
{
    v * 10 + u64::from(b - b'0')
}

// The number that a word says, if it is in the range.
pub(crate) fn number(word: &[u8], r: Range<u64>) -> Option<u32>
    requires { r.end ≤ 4294967296 }
    ensures { result ≡ number_in r.start r.end word.now }
{
    if !is_well_begun(word) {
        return None;
    }
    let mut v: u64 = 0;
    for b in word {
        // A number only grows with its digits, however many there are.
        if !is_digit(*b) || r.end <= v {
            return None;
        }
        v = longer(v, *b);
    }
    if r.contains(&v) { Some(v as u32) } else { None }
}

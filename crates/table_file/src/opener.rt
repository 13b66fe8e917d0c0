// The opener: the table part of a file, if the file is this set's and its table passes the test.
ghost use Rattle.std.specs.Prelude.{◌≡◌, ◌≤◌, length};
ghost use Rattle.table_file.specs.Files.{header_length};
ghost use Rattle.table_file.specs.Open.{difference, present, open_passed, open_of, handed};

use crate::headers;
use shield::tester;
use tasks::refusals::{Reason, Refusal};
use tasks::sets::{Set, ValidSet};

// The lowest byte from lo on and before hi at which the file differs from a set's header.
#[tactic(auto, using(shield::proofs::TestLaws::first_next), unfolding(crate::specs::Open::lowest))]
fn first_difference(v: ValidSet, file: &[u8], lo: usize, hi: usize) -> Option<usize>
    requires { (lo ≤ hi) × (hi ≤ header_length v.set) × (hi ≤ length file.now) }
    ensures { result ≡ difference v.set file.now lo hi }
{
    for i in lo..hi {
        if file[i] != headers::header_byte(v, i) {
            return Some(i);
        }
    }
    None
}

// How many bytes of a set's header a file has.
fn bytes_present(s: Set, file: &[u8]) -> usize
    ensures { result ≡ present s file.now }
{
    file.len().min(headers::header_length(s))
}

// The answer, for a set that has passed its own test.
#[tactic(auto, unfolding(crate::specs::Open::open_passed))]
fn verdict_passed(v: ValidSet, file: &[u8]) -> Result<(), Refusal>
    ensures { result ≡ open_passed v.set file.now }
{
    if file.len() < 5 || first_difference(v, file, 0, 3).is_some() {
        return Err(Refusal {
            reason: Reason::WrongMark,
            place: 0,
        });
    }
    if first_difference(v, file, 3, 5).is_some() {
        return Err(Refusal {
            reason: Reason::WrongVersion,
            place: 3,
        });
    }
    if let Some(at) = first_difference(v, file, 5, bytes_present(v.set, file)) {
        return Err(Refusal {
            reason: Reason::HeaderDiffers,
            place: at as u32,
        });
    }
    let head = headers::header_length(v.set);
    let length = head + v.states as usize;
    if file.len() != length {
        return Err(Refusal {
            reason: Reason::WrongLength,
            place: length as u32,
        });
    }
    tester::test(v.set, &file[head..])
}

// Whether a file opens for a set, or why not.
pub fn verdict(s: Set, file: &[u8]) -> Result<(), Refusal>
    ensures { result ≡ open_of s file.now }
{
    verdict_passed(ValidSet::of(s)?, file)
}

// The table part of a file that opens for a set; of any other, an empty part, and no Result: docs/PROMISES.md has it so.
pub fn open<'a>(s: Set, file: &'a [u8]) -> &'a [u8]
    ensures { result.now ≡ handed s file.now }
{
    match verdict(s, file) {
        Err(_) => &file[..0],
        Ok(()) => &file[headers::header_length(s)..],
    }
}

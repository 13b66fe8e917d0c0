// The reader of sheets, over a text and a place of it, as docs/PROMISES.md has them; the struct of the two is `sheet::Reader`.
#![tactic(auto)]

ghost use Rattle.std.specs.Prelude.{◌≡◌, ◌+◌, length, drop};
ghost use Rattle.sheet_reader.specs.Reading.{refused_with, read_text, reach_text};

use sheet_form::LONGEST;
use sheet_scan::scan;
use tasks::refusals::{Reason, Refusal};
use tasks::sets;
use tasks::sets::Set;

// What reading a sheet answers, and the set that was read. It is no Result of a set: zeros stand beside a refusal, as is promised.
#[derive(Clone, Copy)]
pub struct SheetRead {
    pub answer: Result<(), Refusal>,
    pub set: Set,
}

// A refusal, beside a set of zeros.
fn refused(f: Refusal) -> SheetRead
    ensures { result ≡ refused_with f }
{
    SheetRead {
        answer: Err(f),
        set: sets::no_set(),
    }
}

// How many bytes a text has from a place on.
fn left(text: &[u8], at: usize) -> usize
    ensures { result ≡ length (drop at text.now) }
{
    text.len().saturating_sub(at)
}

// The sheet that stands from a place of a text on: 1, 2, then 3 to 6 by the test of its set.
#[tactic(auto, using(crate::proofs::Passes::read_long, crate::proofs::Passes::read_faulty, crate::proofs::Passes::read_passed, crate::proofs::Passes::read_refused, crate::proofs::Passes::scan_within))]
pub fn read_at(text: &[u8], at: usize) -> SheetRead
    ensures { result ≡ read_text (drop at text.now) }
{
    if LONGEST < left(text, at) {
        return refused(Refusal {
            reason: Reason::SheetTooLong,
            place: 0,
        });
    }
    let s = scan(text, at);
    let Some(set) = s.set else {
        return refused(Refusal {
            reason: Reason::SheetForm,
            place: s.reach as u32,
        });
    };
    match sets::test(set) {
        Ok(_) => SheetRead {
            answer: Ok(()),
            set,
        },
        Err(f) => refused(f),
    }
}

// The place after reading there: past what the form reached, nothing of a text that is too long.
#[tactic(auto, using(crate::proofs::Passes::reach_long, crate::proofs::Passes::reach_scan, crate::proofs::Passes::scan_within))]
pub fn place_after(text: &[u8], at: usize) -> usize
    ensures { result ≡ at + reach_text (drop at text.now) }
{
    if LONGEST < left(text, at) {
        return at;
    }
    at + scan(text, at).reach
}

// The writer of sheets: the one sheet that a set has, into a lent buffer.
#![tactic(auto)]

mod page;

ghost use Rattle.std.specs.Prelude.{◌≡◌};
ghost use Rattle.sheet_form.specs.Sets.{text_of};
ghost use Rattle.sheet_writer.specs.Writing.{leaving, placed, write_of};

use sheet_form::LONGEST;
use tasks::refusals::{Reason, Refusal};
use tasks::sets::{Set, ValidSet};

// The sheet of a set that passes the test, and its length. It is written on a page first, so that its length is known before a byte of the buffer changes.
fn place(v: ValidSet, buf: &mut [u8]) -> Result<u32, Refusal>
    ensures { leaving result buf.new ≡ placed (text_of v.set) buf.old }
{
    let mut page = [0u8; LONGEST];
    let n = page::put_sheet(&mut page, v);
    if buf.len() < n {
        return Err(Refusal {
            reason: Reason::BufferTooShort,
            place: n as u32,
        });
    }
    buf[..n].copy_from_slice(&page[..n]);
    Ok(n as u32)
}

// The sheet of a set, and its length: refused with the set's own, or 7 with the length needed.
#[tactic(auto, unfolding(crate::specs::Writing::write_of))]
pub fn write(set: Set, buf: &mut [u8]) -> Result<u32, Refusal>
    ensures { leaving result buf.new ≡ write_of set buf.old }
{
    place(ValidSet::of(set)?, buf)
}

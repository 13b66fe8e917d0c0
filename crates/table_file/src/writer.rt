// The writer: a set's table as a file, once the table has passed the test.
ghost use Rattle.std.specs.Prelude.{◌≡◌, ◌++◌, ◌≤◌, length, drop};
ghost use Rattle.table_file.specs.Files.{header, header_length, file_of, file_length};
ghost use Rattle.table_file.specs.Write.{Writes};

use crate::headers;
use shield::tester;
use tasks::refusals::{Reason, Refusal};
use tasks::sets::{Set, ValidSet};

// A set's header goes to the file's beginning.
#[tactic(auto, using(shield::proofs::EntryLaws::copy_step, crate::proofs::FileLaws::header_length_lem))]
fn put_header(v: ValidSet, file: &mut [u8])
    requires { header_length v.set ≤ length file.old }
    ensures { file.new ≡ header v.set ++ drop (header_length v.set) file.old }
{
    for i in 0..headers::header_length(v.set) {
        file[i] = headers::header_byte(v, i);
    }
}

// The file of a set: the header, and behind it the table's entries, one a state.
fn put_file(v: ValidSet, table: &[u8], file: &mut [u8])
    requires { (v.states ≤ length table.now) × (file_length v.set ≤ length file.old) }
    ensures { file.new ≡ file_of v.set table.now ++ drop (file_length v.set) file.old }
{
    put_header(v, file);
    let head = headers::header_length(v.set);
    let size = v.states as usize;
    file[head..head + size].copy_from_slice(&table[..size]);
}

// The writer, for a set that has passed the test.
fn write_passed(v: ValidSet, table: &[u8], file: &mut [u8]) -> Result<u32, Refusal>
    ensures { Writes v.set table.now file.old result file.new }
{
    let size = v.states as usize;
    if table.len() < size {
        return Err(Refusal {
            reason: Reason::BufferTooShort,
            place: v.states,
        });
    }
    let length = headers::header_length(v.set) + size;
    let answer = length as u32;
    if file.len() < length {
        return Err(Refusal {
            reason: Reason::BufferTooShort,
            place: answer,
        });
    }
    tester::test(v.set, table)?;
    put_file(v, table, file);
    Ok(answer)
}

// The writer: the file of a set's table, or why there is none.
pub fn write(s: Set, table: &[u8], file: &mut [u8]) -> Result<u32, Refusal>
    ensures { Writes s table.now file.old result file.new }
{
    write_passed(ValidSet::of(s)?, table, file)
}

// The commands on the table and the file.
ghost use Rattle.std.specs.Prelude.{◌≡◌, min, length};
ghost use Rattle.table_file.specs.Open.{open_of, handed};
ghost use Rattle.reporter.specs.Report.{report_of};
ghost use Rattle.desk_buffers.specs.Bytes.{put_at};
ghost use Rattle.desk_buffers.specs.Buffers.{held_in, Become};
ghost use Rattle.desk.specs.After.{built_table, built_work, file_after, opened_length, opened_table, tables_after};

use commands::kinds;
use commands::lines::Command;
use desk_buffers::{Buffers, bytes, say};
use printing::{put, put_number};
use shield::{builder, tester};
use table_file::{opener, writer};
use tasks::sets::Set;

#[tactic(auto, using(crate::proofs::StepLaws::built_leaves))]
fn build(rt: &impl Print, s: Set, table: &mut [u8], work: &mut [u8])
    ensures table_after { table.new ≡ built_table s table.old work.old }
    ensures work_after { work.new ≡ built_work s table.old work.old }
{
    match builder::build(s, table, work) {
        Ok(built) => {
            put_number(rt, b"shield ", built.safe);
            put_number(rt, b" ", built.rounds);
            say::last(rt, b" ", built.start);
        }
        Err(f) => say::refused(rt, f.number(), f.place),
    }
}

fn test(rt: &impl Print, s: Set, table: &[u8]) {
    match tester::test(s, table) {
        Ok(()) => put(rt, b"passed\n"),
        Err(f) => say::refused(rt, f.number(), f.place),
    }
}

fn write(rt: &impl Print, s: Set, table: &[u8], file: &mut [u8])
    ensures { file.new ≡ file_after s table.now file.old }
{
    crate::number(rt, b"file ", writer::write(s, table, file));
}

// The part that an opened file hands back becomes the table, whose new length is answered.
fn take(rt: &impl Print, part: &[u8], table: &mut [u8]) -> u32
    ensures value { result ≡ min (length part.now) 4294967295 }
    ensures table_after { table.new ≡ put_at 0 part.now table.old }
{
    let n = bytes::size(part);
    bytes::copy(part, table);
    put_number(rt, b"part ", n);
    say::last(rt, b" ", bytes::adler(part));
    n
}

// The table's length after opening the file: n where that is refused.
fn open(rt: &impl Print, s: Set, file: &[u8], n: u32, table: &mut [u8]) -> u32
    ensures value { result ≡ opened_length (open_of s file.now) (handed s file.now) n }
    ensures table_after { table.new ≡ opened_table (open_of s file.now) (handed s file.now) table.old }
{
    match opener::verdict(s, file) {
        Ok(()) => take(rt, opener::open(s, file), table),
        Err(f) => {
            say::refused(rt, f.number(), f.place);
            n
        }
    }
}

// The report on the text, with the table and the work buffer, into the file.
fn print(rt: &impl Print, text: &[u8], table: &mut [u8], work: &mut [u8], file: &mut [u8])
    ensures table_after { table.new ≡ (report_of text.now table.old work.old file.old).table }
    ensures work_after { work.new ≡ (report_of text.now table.old work.old file.old).work }
    ensures file_after { file.new ≡ (report_of text.now table.old work.old file.old).output }
{
    match reporter::report(text, table, work, file) {
        Ok(n) => say::written(rt, b"report ", n, file),
        Err(f) => say::refused(rt, f.number(), f.place),
    }
}

// A command on the table or the file.
#[tactic(auto, unfolding(crate::specs::After::tables_after), using(desk_buffers::proofs::BytesLaws::within_take, desk_buffers::proofs::BytesLaws::within_drop))]
pub fn carry_out(rt: &impl Print, c: Command, s: Set, b: &mut Buffers<'_>)
    ensures { Become b.old b.new (tables_after (held_in b.old) s c.kind) }
{
    let l = b.lengths;
    let table = &mut *b.table;
    let work = &mut *b.work;
    let file = &mut *b.file;
    let text = &mut *b.text;
    let t = bytes::within(l.table, table);
    let w = bytes::within(l.work, work);
    let f = bytes::within(l.file, file);
    match c.kind {
        kinds::BUILD => build(rt, s, &mut table[..t], &mut work[..w]),
        kinds::TEST_TABLE => test(rt, s, bytes::first(l.table, table)),
        kinds::WRITE => write(rt, s, bytes::first(l.table, table), &mut file[..f]),
        kinds::OPEN => b.lengths.table = open(rt, s, bytes::first(l.file, file), l.table, table),
        _ => print(
            rt,
            bytes::first(l.text, text),
            &mut table[..t],
            &mut work[..w],
            &mut file[..f],
        ),
    }
}

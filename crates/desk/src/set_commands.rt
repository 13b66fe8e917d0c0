// The commands on the set and its sheet.
ghost use Rattle.std.specs.Prelude.{◌≡◌, take, drop};
ghost use Rattle.sheet_reader.specs.Reading.{read_text};
ghost use Rattle.sheet_writer.specs.Writing.{write_of};
ghost use Rattle.desk.specs.Steps.{set_after, text_after};

use crate::set_fields;
use commands::kinds;
use commands::lines::Command;
use desk_buffers::{bytes, say};
use printing::{put, put_number};
use sheet_reader::SheetRead;
use tasks::sets;
use tasks::sets::{Set, Task};

// What reading answers is said, and the set is that which it returns.
fn said(rt: &impl Print, r: SheetRead) -> Set
    ensures { result ≡ r.set }
{
    crate::answer(rt, r.answer);
    r.set
}

// The text read as a sheet.
fn read(rt: &impl Print, text: &[u8]) -> Set
    ensures { result ≡ (read_text text.now).set }
{
    said(rt, sheet::read(text))
}

// A reader of the text, at a place: what it reads there.
fn next(rt: &impl Print, text: &[u8], at: usize) -> Set
    ensures { result ≡ (read_text (drop at text.now)).set }
{
    said(rt, sheet::read_from(text, at))
}

// Its place after that.
fn past(rt: &impl Print, text: &[u8], at: usize) {
    say::last(rt, b"place ", sheet::place_after(text, at));
}

fn write_sheet(rt: &impl Print, s: Set, text: &mut [u8])
    ensures { text.new ≡ (write_of s text.old).bytes }
{
    match sheet::write(s, text) {
        Ok(n) => say::written(rt, b"sheet ", n, text),
        Err(f) => say::refused(rt, f.number(), f.place),
    }
}

fn show_task(rt: &impl Print, t: Task) {
    put_number(rt, b" ", t.kind);
    put_number(rt, b" ", t.deadline);
    put_number(rt, b" ", t.runs);
    put_number(rt, b" ", t.gaps);
}

fn show(rt: &impl Print, s: Set) {
    put(rt, b"set ");
    let name = s.name;
    say::bytes(rt, &name);
    put_number(rt, b" ", s.count);
    for t in s.tasks {
        show_task(rt, t);
    }
    put(rt, b"\n");
}

fn test(rt: &impl Print, s: Set) {
    crate::number(rt, b"states ", sets::test(s));
}

// A command on the set, and the set after it; n is the length of the text.
#[tactic(auto, unfolding(crate::specs::Steps::set_after, crate::specs::Steps::text_after), using(desk_buffers::proofs::BytesLaws::within_take, desk_buffers::proofs::BytesLaws::within_drop))]
pub fn carry_out(rt: &impl Print, c: Command, line: &[u8], s: Set, n: u32, text: &mut [u8]) -> Set
    ensures value { result ≡ set_after c.kind c.values line.now (take n text.old) s }
    ensures text_after { text.new ≡ text_after c.kind s n text.old }
{
    let vs = c.values;
    let end = bytes::within(n, text);
    match c.kind {
        kinds::READ => return read(rt, &text[..end]),
        kinds::NEXT => return next(rt, &text[..end], vs.first as usize),
        kinds::PAST => past(rt, &text[..end], vs.first as usize),
        kinds::SHEET => write_sheet(rt, s, &mut text[..end]),
        kinds::SHOW_SET => show(rt, s),
        kinds::TEST_SET => test(rt, s),
        _ => {
            say::ok(rt);
            return set_fields::with(s, c.kind, vs.first, vs.second, line);
        }
    }
    s
}

// Reads one sheet over and over, to be timed from outside.
// Standard input: two 16-bit numbers, of reads and of bytes, and 1,024 bytes of which the first are the sheet's.
#![tactic(auto)]

use bench_input::{put, put_number, sum, wide};
use sheet_reader::SheetRead;
use tasks::sets::Set;

// One record of a set, another each time, and a character of its name.
fn of_set(s: Set, i: u16) -> u32 {
    let t = s.tasks[usize::from(i % 7)];
    let b = s.name[usize::from(i % 16)];
    let head = sum(u32::from(s.count), u32::from(b));
    let lists = sum(u32::from(t.runs), u32::from(t.gaps));
    sum(head, sum(u32::from(t.deadline), lists))
}

fn of_read(r: SheetRead, i: u16) -> u32 {
    match r.answer {
        Ok(()) => of_set(r.set, i),
        Err(f) => sum(f.place, u32::from(f.number())),
    }
}

// The first character of the name changes, so that each sheet is another.
fn touch(text: &mut [u8], i: u16) {
    if 4 < text.len() {
        text[4] = b'A' + (i % 26) as u8;
    }
}

fn reads(text: &mut [u8], n: u16) -> u32 {
    let mut total = 0;
    for i in 0..n {
        touch(text, i);
        total = sum(total, of_read(sheet_reader::read_at(text, 0), i));
    }
    total
}

fn read_first(text: &mut [u8], bytes: u16, n: u16) -> u32 {
    let end = usize::from(bytes).min(text.len());
    reads(&mut text[..end], n)
}

fn main(rt: HostRuntime) {
    let mut input = rt.stdin();
    let mut b = [0; 4];
    let mut text = [0; 1024];
    reading::fill(&mut input, &mut b);
    reading::fill(&mut input, &mut text);
    let total = read_first(&mut text, wide(b[2], b[3]), wide(b[0], b[1]));
    put_number(&rt, b"sum ", total);
    put(&rt, b"\n");
}

// The four buffers' bytes, and the commands on them.
#![tactic(auto)]

pub mod bytes;
pub mod say;

ghost use Rattle.std.specs.Prelude.{◌≡◌, ◌+◌, ◌%◌, ◌^◌, drop};
ghost use Rattle.desk_buffers.specs.Bytes.{put_at, said};
ghost use Rattle.desk_buffers.specs.Buffers.{length_after, bytes_after, held_in, Become, buffers_after};

use commands::buffers::Lengths;
use commands::lines::Command;
use commands::{buffers, kinds};
use printing::{put, put_number};

// The four buffers, lent, with their present lengths.
#[derive(Drop)]
pub struct Buffers<'a> {
    pub table: &'a mut [u8],
    pub work: &'a mut [u8],
    pub file: &'a mut [u8],
    pub text: &'a mut [u8],
    pub lengths: Lengths,
}

// So many bytes from a place on.
fn show(rt: &impl Print, buf: &[u8], from: u32, count: u32) {
    put(rt, b"bytes ");
    say::bytes(rt, bytes::part(buf, from, count));
    put(rt, b"\n");
}

fn sum(rt: &impl Print, n: u32, buf: &[u8]) {
    put_number(rt, b"sum ", n);
    say::last(rt, b" ", bytes::adler(buf));
}

// A command on one buffer of n bytes, and its new length.
#[tactic(auto, unfolding(crate::specs::Buffers::length_after, crate::specs::Buffers::bytes_after))]
fn on_buffer(rt: &impl Print, c: Command, n: u32, buf: &mut [u8]) -> u32
    ensures value { result ≡ length_after c.kind c.values n }
    ensures buf_after { buf.new ≡ bytes_after c.kind c.values n buf.old }
{
    let vs = c.values;
    match c.kind {
        kinds::FILL => {
            bytes::fill(buf, 0, vs.second as usize, bytes::byte(vs.third));
            say::ok(rt);
            vs.second
        }
        kinds::CUT => {
            bytes::fill(buf, n as usize, vs.second as usize, 0);
            say::ok(rt);
            vs.second
        }
        kinds::POKE => {
            bytes::poke(buf, vs.second as usize, bytes::byte(vs.third));
            say::ok(rt);
            n
        }
        kinds::SHOW => {
            show(rt, bytes::first(n, buf), vs.second, vs.third);
            n
        }
        _ => {
            sum(rt, n, bytes::first(n, buf));
            n
        }
    }
}

// The bytes of the line go behind those of the text, whose new length is answered.
fn add_text(rt: &impl Print, count: u32, line: &[u8], n: u32, text: &mut [u8]) -> u32
    ensures value { result ≡ (n + count) % 2 ^ 32 }
    ensures text_after { text.new ≡ put_at n (said (drop 5 line.now) count 0) text.old }
{
    bytes::add(bytes::behind(line), count, text, n);
    say::ok(rt);
    n.wrapping_add(count)
}

// A command on a buffer.
#[tactic(auto, unfolding(crate::specs::Buffers::buffers_after))]
pub fn carry_out(rt: &impl Print, c: Command, line: &[u8], b: &mut Buffers<'_>)
    ensures { Become b.old b.new (buffers_after c.kind c.values line.now (held_in b.old)) }
{
    let vs = c.values;
    let l = b.lengths;
    if c.kind == kinds::TEXT {
        b.lengths.text = add_text(rt, vs.first, line, l.text, b.text);
        return;
    }
    match vs.first {
        buffers::TABLE => b.lengths.table = on_buffer(rt, c, l.table, b.table),
        buffers::WORK => b.lengths.work = on_buffer(rt, c, l.work, b.work),
        buffers::FILE => b.lengths.file = on_buffer(rt, c, l.file, b.file),
        _ => b.lengths.text = on_buffer(rt, c, l.text, b.text),
    }
}

// A log of commands on standard input, an answer line for each of its lines.
#![tactic(auto)]

ghost use Rattle.std.specs.Prelude.{◌≡◌};
ghost use Rattle.desk.specs.After.{held_of, Leaves};
ghost use Rattle.replay.specs.Log.{line_after, logged_of, Goes, no_log, ended_line, byte_after, piece_after};

use commands::{buffers, lines};
use desk::LentDesk;
use desk_buffers::{bytes, say};
use std::io::Read;

// Of a line that is too long, one byte more than a line may have is kept.
const KEPT: u32 = lines::LONGEST as u32 + 1;

// The log as it goes: the line so far, whose first bytes are used, and the number of lines before it.
#[derive(Drop)]
struct Log<'a> {
    line: &'a mut [u8],
    used: u32,
    lines: u64,
}

// Nothing is held yet, and no byte is read.
fn begun<'a>(
    line: &'a mut [u8],
    table: &'a mut [u8],
    work: &'a mut [u8],
    file: &'a mut [u8],
    text: &'a mut [u8],
) -> (Log<'a>, LentDesk<'a>)
    ensures { logged_of result.0 result.1 ≡ no_log line.old table.old work.old file.old text.old }
{
    let desk = desk::fresh().over(table, work, file, text);
    let log = Log {
        line,
        used: 0,
        lines: 0,
    };
    (log, desk)
}

// A line: mangled, it is named and nothing is touched.
fn answer(rt: &impl Print, line: &[u8], number: u64, d: &mut LentDesk<'_>)
    ensures { Leaves d.old d.new (line_after line.now (held_of d.old)) }
{
    match lines::parse(line, d.buffers.lengths) {
        Some(c) => desk::carry_out(rt, c, line, d),
        None => say::mangled(rt, number),
    }
}

// The line's end.
#[tactic(auto, unfolding(crate::specs::Log::ended_line))]
fn end_line(rt: &impl Print, g: &mut Log<'_>, d: &mut LentDesk<'_>)
    ensures { Goes g.old g.new d.old d.new (ended_line (logged_of g.old d.old)) }
{
    let number = g.lines.wrapping_add(1);
    let used = g.used;
    let line = &mut *g.line;
    answer(rt, bytes::first(used, line), number, d);
    g.used = 0;
    g.lines = number;
}

// A byte of the log.
#[tactic(auto, unfolding(crate::specs::Log::byte_after))]
fn take_byte(rt: &impl Print, b: u8, g: &mut Log<'_>, d: &mut LentDesk<'_>)
    ensures { Goes g.old g.new d.old d.new (byte_after b (logged_of g.old d.old)) }
{
    if b == b'\n' {
        end_line(rt, g, d);
        return;
    }
    let used = g.used;
    if used < KEPT {
        bytes::poke(g.line, used as usize, b);
        g.used = used + 1;
    }
}

// A piece of the log.
fn take_piece(rt: &impl Print, piece: &[u8], g: &mut Log<'_>, d: &mut LentDesk<'_>)
    ensures { Goes g.old g.new d.old d.new (piece_after piece.now (logged_of g.old d.old)) }
{
    for b in piece {
        take_byte(rt, *b, g, d);
    }
}

// One piece of standard input, if there is one: an empty piece ends the log, and so does a read that fails.
fn take_some<R: Read>(
    rt: &impl Print,
    input: &mut R,
    g: &mut Log<'_>,
    d: &mut LentDesk<'_>,
) -> bool {
    let mut piece = [0u8; 65536];
    let n = input.read(&mut piece).unwrap_or(0);
    take_piece(rt, &piece[..n], g, d);
    n > 0
}

// Piece by piece, to the end: no log has as many pieces as there are turns.
fn read_log<R: Read>(rt: &impl Print, input: &mut R, g: &mut Log<'_>, d: &mut LentDesk<'_>) {
    for _ in 0..u64::MAX {
        if !take_some(rt, input, g, d) {
            return;
        }
    }
}

fn main(rt: HostRuntime) {
    let mut input = rt.stdin();
    let mut line = [0u8; KEPT as usize];
    let mut table = [0u8; buffers::TABLE_MOST as usize];
    let mut work = [0u8; buffers::TABLE_MOST as usize];
    let mut file = [0u8; buffers::FILE_MOST as usize];
    let mut text = [0u8; buffers::TEXT_MOST as usize];
    let (mut g, mut d) = begun(&mut line, &mut table, &mut work, &mut file, &mut text);
    read_log(&rt, &mut input, &mut g, &mut d);
    // Bytes after the last LF are a line too.
    if 0 < g.used {
        end_line(&rt, &mut g, &mut d);
    }
}

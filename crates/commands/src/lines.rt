// A line, word by word, against the rows of the page.
ghost use Rattle.std.specs.Prelude.{◌≡◌, ◌+◌, ◌≤◌, length};
ghost use Rattle.commands.specs.Texts.{parts};
ghost use Rattle.commands.specs.Lines.{fit, fit_rows, parse_of};

use crate::buffers::Lengths;
use crate::forms::Values;
use crate::{forms, texts};

// The most bytes of a line.
pub const LONGEST: usize = 255;

// A command: its row of the page, and the values of its words.
#[derive(Clone, Copy, Debug, PartialEq, Eq)]
pub struct Command {
    pub kind: usize,
    pub values: Values,
}

// The values of a line's words from a place on, by a row from there on: each has the value of its form, and there are as many words as forms.
// A line has no more words than bytes, which bounds `place`.
fn fit_row(line: &[u8], row: &[u8], place: usize, lengths: Lengths, vs: Values) -> Option<Values>
    requires { place + length line.now ≤ 255 }
    ensures { result ≡ fit lengths vs place (parts 32 row.now) (parts 32 line.now) }
{
    let end = texts::find(line, b' ');
    let stop = texts::find(row, b' ');
    let v = forms::value(&row[..stop], &line[..end], lengths, vs)?;
    let next = forms::keep(vs, place, v);
    if end == line.len() {
        return (stop == row.len()).then_some(next);
    }
    if stop == row.len() {
        return None;
    }
    fit_row(&line[end + 1..], &row[stop + 1..], place + 1, lengths, next)
}

// The first row of a page that the line fits, the rows being numbered from `kind` on; a page has no more rows than bytes, which bounds them.
fn first_row(line: &[u8], page: &[u8], kind: usize, lengths: Lengths) -> Option<Command>
    requires { (length line.now ≤ 255) × (kind + length page.now ≤ 1000) }
    ensures { result ≡ fit_rows lengths kind (parts 10 page.now) (parts 32 line.now) }
{
    let stop = texts::find(page, b'\n');
    let none = Values {
        first: 0,
        second: 0,
        third: 0,
    };
    if let Some(values) = fit_row(line, &page[..stop], 0, lengths, none) {
        return Some(Command { kind, values });
    }
    if stop == page.len() {
        return None;
    }
    first_row(line, &page[stop + 1..], kind + 1, lengths)
}

// The command that a line says while the buffers have these lengths: none where it is mangled.
#[tactic(auto, unfolding(crate::specs::Lines::parse_of, crate::specs::Lines::page))]
pub fn parse(line: &[u8], lengths: Lengths) -> Option<Command>
    ensures { result ≡ parse_of lengths line.now }
{
    if LONGEST < line.len() {
        return None;
    }
    first_row(
        line,
        // U a buffer, L a length, O an offset, C a count, I a task, F 0 or 1, B a byte, H 16 bits, W 32 bits, N a name, T a text.
        b"reset\nfill U L B\ncut U L\npoke U O B\nshow U O C\nsum U\ntext T\nread\nnext H\npast H\nsheet\nname N\ncount B\nkind I B\ndeadline I B\nruns I H\ngaps I H\nshow set\ntest set\nbuild\ntest table\nwrite\nopen\nprint\nstart W\nask B\nreport W F B\nshow run\nage I B\njob I B\njob I none\narrived I W\nfinished I W\nreplaced I W\nticks W\nsubstitutions W\nreading W\nawaited B\nawaited none",
        0,
        lengths,
    )
}

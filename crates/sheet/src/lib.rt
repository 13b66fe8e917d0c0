// Sheets: a reader that holds the text and its place, the plain functions over it, and the writer.
#![tactic(auto)]

ghost use Rattle.std.specs.Prelude.{◌≡◌, ◌+◌, drop};
ghost use Rattle.sheet_reader.specs.Reading.{read_text, reach_text};
ghost use Rattle.sheet_writer.specs.Writing.{leaving, write_of};

use sheet_reader::SheetRead;
use tasks::refusals::Refusal;
use tasks::sets::Set;

// A reader holds the text and its place.
#[derive(Clone, Copy)]
pub struct Reader<'a> {
    pub text: &'a [u8],
    pub at: usize,
}

// A reader at a place of a text.
pub fn begin<'a>(text: &'a [u8], at: usize) -> Reader<'a>
    ensures { (result.text ≡ text.entry) × (result.at ≡ at) }
{
    Reader { text, at }
}

// All that stands from a reader's place to the end of its text, read as one sheet; the place of a form fault counts from the reader's.
pub fn next<'a>(r: Reader<'a>) -> SheetRead
    ensures { result ≡ read_text (drop r.entry.at r.entry.text.now) }
{
    sheet_reader::read_at(r.text, r.at)
}

// The reader after that: at the end of its text or, where the form has a fault, at its place; where it was, if over 1,024 bytes are left.
pub fn past<'a>(r: Reader<'a>) -> Reader<'a>
    ensures { (result.text ≡ r.entry.text) × (result.at ≡ r.entry.at + reach_text (drop r.entry.at r.entry.text.now)) }
{
    Reader {
        text: r.text,
        at: sheet_reader::place_after(r.text, r.at),
    }
}

// What a reader at a place of a text reads.
pub fn read_from(text: &[u8], at: usize) -> SheetRead
    ensures { result ≡ read_text (drop at text.now) }
{
    next(begin(text, at))
}

// Where it stands after that.
pub fn place_after(text: &[u8], at: usize) -> usize
    ensures { result ≡ at + reach_text (drop at text.now) }
{
    past(begin(text, at)).at
}

// The set that a text says, or the refusal beside a set of zeros.
pub fn read(text: &[u8]) -> SheetRead
    ensures { result ≡ read_text text.now }
{
    read_from(text, 0)
}

// The one sheet that a set has, into a lent buffer: its length, or the refusal.
pub fn write(set: Set, buf: &mut [u8]) -> Result<u32, Refusal>
    ensures { leaving result buf.new ≡ write_of set buf.old }
{
    sheet_writer::write(set, buf)
}

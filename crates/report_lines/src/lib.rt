// The report's lines, each put into a lent buffer from a place on. What does not fit is left out.
#![tactic(auto)]

ghost use Rattle.std.specs.Prelude.{◌+◌, ◌/◌, ◌<◌, min, length};
ghost use Rattle.sheet_form.specs.Form.{each};
ghost use Rattle.texts.specs.Puts.{Adds};
ghost use Rattle.texts.specs.Texts.{bytes};
ghost use Rattle.report_lines.specs.Lines.{number_text, field, set_line, shield_line, row_line, row_lines, refused_line};

use itoa::Buffer;
use tasks::sets::Set;
use texts::Page;

// A number, in base ten.
fn put_number(page: &mut Page<'_>, n: u64)
    ensures { Adds page.old page.new (number_text n) }
{
    let mut digits = Buffer::new();
    page.put_word(digits.format(n).as_bytes());
}

// A word, and a number after it.
// Callers widen it by `as`, and no `u64::from`: a `usize` has none, and for the others each answer would grow by an equation (tried).
fn put_field(page: &mut Page<'_>, word: &[u8], n: u64)
    ensures { Adds page.old page.new (field word.now n) }
{
    page.put_word(word);
    put_number(page, n);
}

// The set line: name, tasks, states.
pub fn put_set_line(page: &mut Page<'_>, set: Set, states: u32)
    ensures { Adds page.old page.new (set_line set states) }
{
    page.put_word(b"set ");
    page.put_name(set.name);
    put_field(page, b" tasks ", set.count as u64);
    put_field(page, b" states ", states as u64);
    page.put(b'\n');
}

// The shield line: safe states, R, the start's entry.
pub fn put_shield_line(page: &mut Page<'_>, safe: u32, rounds: u32, start: u8)
    ensures { Adds page.old page.new (shield_line safe rounds start) }
{
    put_field(page, b"shield ", safe as u64);
    put_field(page, b" rounds ", rounds as u64);
    put_field(page, b" start ", start as u64);
    page.put(b'\n');
}

// Entries, each after a space.
fn put_entries(page: &mut Page<'_>, entries: &[u8])
    ensures { Adds page.old page.new (each (field (bytes " ")) entries.now) }
{
    for e in entries {
        put_field(page, b" ", *e as u64);
    }
}

// A row: its first index, and its entries.
fn put_row(page: &mut Page<'_>, first: usize, entries: &[u8])
    ensures { Adds page.old page.new (row_line first entries.now) }
{
    put_field(page, b"row ", first as u64);
    put_entries(page, entries);
    page.put(b'\n');
}

// The rows of a table: eight entries a row.
pub fn put_rows(page: &mut Page<'_>, table: &[u8])
    ensures { Adds page.old page.new (row_lines table.now ((length table.now + 7) / 8)) }
{
    for (k, row) in table.chunks(8).enumerate() {
        put_row(page, 8 * k, row);
    }
}

// A refusal's line, in place of all others: its number and its place.
// Numbers, and no `Refusal`: it promises a line of any two.
pub fn put_refused_line(page: &mut Page<'_>, number: u8, place: u32)
    ensures { Adds page.old page.new (refused_line number place) }
{
    put_field(page, b"refused ", number as u64);
    put_field(page, b" ", place as u64);
    page.put(b'\n');
}

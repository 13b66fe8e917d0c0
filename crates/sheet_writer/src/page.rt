// A set's sheet on a page.
ghost use Rattle.std.specs.Prelude.{◌<◌, eqb};
ghost use Rattle.tasks.specs.Lists.{values_of, length_of};
ghost use Rattle.tasks.specs.Valid.{ValidTask};
ghost use Rattle.sheet_form.specs.Form.{decimal, values_text, kind_text, line_text};
ghost use Rattle.sheet_form.specs.Sets.{last_apart, line_of, text_of};
ghost use Rattle.texts.specs.Puts.{Puts, Adds};
ghost use Rattle.sheet_writer.specs.Page.{value_text};

use tasks::lists;
use tasks::sets::{Task, ValidSet};
use texts::Page;

// A number below 100. Its digits are made here, and not by `itoa` as a report's: the sheet's own `decimal` has one or two.
fn put_number(page: &mut Page<'_>, v: u8)
    requires { v < 100 }
    ensures { Adds page.old page.new (decimal v) }
{
    if v < 10 {
        page.put(b'0' + v);
        return;
    }
    page.put(b'0' + v / 10);
    page.put(b'0' + v % 10);
}

// A value with its comma, where the list has it.
fn put_value(page: &mut Page<'_>, list: u16, v: u8)
    requires { v < 100 }
    ensures { Adds page.old page.new (value_text list v) }
{
    if !lists::has(list, u32::from(v)) {
        return;
    }
    put_number(page, v);
    page.put(b',');
}

// A list: the values below the longest with their commas, and the longest.
fn put_list(page: &mut Page<'_>, list: u16)
    requires { 0 < length_of list }
    ensures { Adds page.old page.new (values_text (last_apart (values_of list))) }
{
    let top = lists::longest(list) as u8;
    for v in 1..top {
        put_value(page, list, v);
    }
    put_number(page, top);
}

// `hard ` or `soft `.
fn put_kind(page: &mut Page<'_>, kind: u8)
    ensures { Adds page.old page.new (kind_text (eqb kind 1)) }
{
    page.put_word(if kind == 1 { b"hard " } else { b"soft " });
}

// A task's line.
fn put_line(page: &mut Page<'_>, t: Task)
    requires { ValidTask t }
    ensures { Adds page.old page.new (line_text (line_of t)) }
{
    put_kind(page, t.kind);
    put_number(page, t.deadline);
    page.put(b' ');
    put_list(page, t.runs);
    page.put(b' ');
    put_list(page, t.gaps);
    page.put(b'\n');
}

// The whole sheet of a set, from the buffer's first byte on.
pub(crate) fn put_sheet(buf: &mut [u8], v: ValidSet) -> usize
    ensures { Puts buf.old buf.new 0 result (text_of v.set) }
{
    let mut page = Page { buf, at: 0 };
    page.put_word(b"set ");
    page.put_name(v.set.name);
    page.put(b'\n');
    for t in &v.set.tasks[..usize::from(v.set.count)] {
        put_line(&mut page, *t);
    }
    page.at
}

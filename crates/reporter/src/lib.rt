// The report on a sheet: its set and that set's shield in a few lines, or the line of a refusal, into a lent buffer.
#![tactic(auto)]

ghost use Rattle.std.specs.Prelude.{◌≡◌, length, take};
ghost use Rattle.tasks.specs.Refusals.{number_of};
ghost use Rattle.tasks.specs.Sets.{states_of};
ghost use Rattle.shield.specs.Build.{build_of};
ghost use Rattle.shield.specs.Shield.{shield_table};
ghost use Rattle.texts.specs.Puts.{Puts};
ghost use Rattle.report_lines.specs.Lines.{refused_line};
ghost use Rattle.reporter.specs.Report.{built_text, told_built, told_of, Tells, leaving, report_of};

use sheet_reader::SheetRead;
use shield::builder;
use shield::builder::Built;
use tasks::refusals::{Reason, Refusal};
use tasks::sets::{Set, ValidSet};
use texts::Page;

// The bytes that every report fits in.
pub const ROOM: usize = 390;

// A refusal's line.
fn put_refused(buf: &mut [u8], f: Refusal) -> usize
    ensures { Puts buf.old buf.new 0 result (refused_line (number_of f.reason) f.place) }
{
    let mut page = Page { buf, at: 0 };
    report_lines::put_refused_line(&mut page, f.number(), f.place);
    page.at
}

// The lines of a set whose shield stands in the table.
fn put_done(buf: &mut [u8], v: ValidSet, table: &[u8], built: Built) -> usize
    requires { take (states_of v.set) table.now ≡ shield_table v.set }
    ensures { Puts buf.old buf.new 0 result (built_text v.set (Ok built)) }
{
    let mut page = Page { buf, at: 0 };
    report_lines::put_set_line(&mut page, v.set, v.states);
    report_lines::put_shield_line(&mut page, built.safe, built.rounds, built.start);
    if 64 < v.states {
        return page.at;
    }
    report_lines::put_rows(&mut page, &table[..v.states as usize]);
    page.at
}

// The lines of a set, and its shield in the table.
fn put_set(buf: &mut [u8], set: Set, table: &mut [u8], work: &mut [u8]) -> usize
    ensures { Tells buf.old buf.new result table.new work.new (told_built set table.old work.old (build_of set (length table.old) (length work.old))) }
{
    match builder::build(set, table, work) {
        Ok(built) => put_done(buf, ValidSet::of(set).unwrap(), table, built),
        Err(f) => put_refused(buf, f),
    }
}

// The lines of a sheet.
fn put_sheet(buf: &mut [u8], sheet: &[u8], table: &mut [u8], work: &mut [u8]) -> usize
    ensures { Tells buf.old buf.new result table.new work.new (told_of sheet.now table.old work.old) }
{
    let SheetRead { answer, set } = sheet::read(sheet);
    match answer {
        Ok(()) => put_set(buf, set, table, work),
        Err(f) => put_refused(buf, f),
    }
}

// The report on a sheet, and its length. An output without room for every report is refused before anything is done.
pub fn report(
    sheet: &[u8],
    table: &mut [u8],
    work: &mut [u8],
    output: &mut [u8],
) -> Result<u32, Refusal>
    ensures { leaving result table.new work.new output.new ≡ report_of sheet.now table.old work.old output.old }
{
    if output.len() < ROOM {
        return Err(Refusal {
            reason: Reason::BufferTooShort,
            place: ROOM as u32,
        });
    }
    Ok(put_sheet(output, sheet, table, work) as u32)
}

// One pass over the bytes of a sheet: how far its form goes, and the set that it says.
#![tactic(auto)]

mod adds;
mod steps;

ghost use Rattle.std.specs.Prelude.{◌≡◌, drop};
ghost use Rattle.sheet_scan.specs.Scan.{scan_text};

use sheet_fields::fields::ended_task;
use sheet_fields::state;
use tasks::sets;
use tasks::sets::Set;

// What a pass finds: how many of the text's bytes are a beginning of a sheet, which is asked for in both cases, and the set where the
// whole of it is one.
#[derive(Clone, Copy, Debug, PartialEq, Eq)]
pub struct Scanned {
    pub reach: usize,
    pub set: Option<Set>,
}

// A text from a place on; nothing of it past its end.
fn rest(text: &[u8], at: usize) -> &[u8]
    ensures { result.now ≡ drop at text.now }
{
    text.get(at..).unwrap_or(&[])
}

// The text from a place on, byte by byte. Text and place, and no struct: docs/PROMISES.md has `scan` of any two.
pub fn scan(text: &[u8], at: usize) -> Scanned
    ensures { result ≡ scan_text (drop at text.now) }
{
    let rest = rest(text, at);
    let Set {
        mut name,
        mut tasks,
        ..
    } = sets::no_set();
    let mut s = state::blank(state::SET_WORD);
    for (i, b) in rest.iter().enumerate() {
        let n = steps::step(s, *b);
        if n.mode == state::FAULT {
            return Scanned {
                reach: i,
                set: None,
            };
        }
        adds::add_byte(&mut name, s, n, *b);
        if adds::ends_task(s, n) {
            let k = usize::from(s.count);
            tasks[k] = ended_task(s);
        }
        s = n;
    }
    let set = Set {
        name,
        count: s.count,
        tasks,
    };
    Scanned {
        reach: rest.len(),
        set: steps::is_whole(s).then_some(set),
    }
}

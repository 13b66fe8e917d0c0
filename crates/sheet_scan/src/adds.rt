// What a byte of a sheet adds to the name and to the tasks, by the states before it and after it.
// One test after the other, with a return at each: a sheet is read more slowly with `&&` of them.
ghost use Rattle.std.specs.Prelude.{◌≡◌};
ghost use Rattle.sheet_scan.specs.Steps.{name_after, ends_task};

use sheet_fields::state;
use sheet_fields::state::State;

// A character of the name. No step stays in the name past its last place: the last test only lets the contract hold for any two states.
pub(crate) fn add_byte(name: &mut [u8; 16], s: State, n: State, b: u8)
    ensures { name.new ≡ name_after name.old s n b }
{
    if s.mode != state::NAME {
        return;
    }
    if n.mode != state::NAME {
        return;
    }
    let at = usize::from(s.at);
    if at < 16 {
        name[at] = b;
    }
}

// Whether a task ends. None ends after the seventh: the last test only says that its place is in range, for any two states.
pub(crate) fn ends_task(s: State, n: State) -> bool
    ensures { result ≡ ends_task s n }
{
    if s.mode != state::GAPS {
        return false;
    }
    if n.mode != state::LINE {
        return false;
    }
    s.count < 7
}

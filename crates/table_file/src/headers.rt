// The header of a set's file, byte by byte.
ghost use Rattle.std.specs.Prelude.{◌≡◌, ◌++◌, ◌<◌, get_or};
ghost use Rattle.table_file.specs.Files.{mark, version, task_bytes, header, header_length};

use tasks::sets::{Set, Task, ValidSet};

// How long the header is: 26 bytes, and six a task.
pub(crate) fn header_length(s: Set) -> usize
    ensures { result ≡ header_length s }
{
    26 + 6 * usize::from(s.count)
}

// Byte k of a task's six.
fn task_byte(t: Task, k: usize) -> u8
    requires { k < 6 }
    ensures { result ≡ get_or (task_bytes t) k 0 }
{
    let runs = t.runs.to_le_bytes();
    let gaps = t.gaps.to_le_bytes();
    [t.kind, t.deadline, runs[0], runs[1], gaps[0], gaps[1]][k]
}

// Byte i of the mark and the version.
fn fixed_byte(i: usize) -> u8
    requires { i < 5 }
    ensures { result ≡ get_or (mark ++ version) i 0 }
{
    [b'S', b'H', b'T', 1, 0][i]
}

// Byte i of a set's header.
#[tactic(auto, using(crate::proofs::FileLaws::fixed_at, crate::proofs::FileLaws::name_at, crate::proofs::FileLaws::count_at))]
pub(crate) fn header_byte(v: ValidSet, i: usize) -> u8
    requires { i < header_length v.set }
    ensures { result ≡ get_or (header v.set) i 0 }
{
    if i < 5 {
        return fixed_byte(i);
    }
    if i < 21 {
        return v.set.name[i - 5];
    }
    if i == 21 {
        return v.set.count;
    }
    let at = i - 22;
    let task = at / 6;
    if task < usize::from(v.set.count) {
        return task_byte(v.set.tasks[task], at % 6);
    }
    v.states.to_le_bytes()[i + 4 - header_length(v.set)]
}

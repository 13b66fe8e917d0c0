// Tasks and sets of the worked cases.
ghost use Rattle.std.specs.Prelude.{◌≡◌, ◌≤◌, replicate};
ghost use Rattle.tasks.specs.Sets.{no_task};
ghost use Rattle.tasks.specs.Examples.{soft, hard, PAIR, EXAMPLE};
ghost use Rattle.cases.specs.Sets.{task_of, records_of, case_of, renamed};

use tasks::sets::{Set, Task};

// A list of one value is named after it. Names, and no function of the value: `V1 + V2` reads as the label does, 1,2.
pub const V1: u16 = 1;

pub const V2: u16 = 2;

pub const V3: u16 = 4;

pub const V4: u16 = 8;

pub const V5: u16 = 16;

pub const V6: u16 = 32;

pub const V7: u16 = 64;

pub const V13: u16 = 4096;

pub const V14: u16 = 8192;

pub const V15: u16 = 16384;

pub const V16: u16 = 32768;

pub fn task(kind: u8, deadline: u8, runs: u16, gaps: u16) -> Task
    ensures { result ≡ task_of kind deadline runs gaps }
{
    Task {
        kind,
        deadline,
        runs,
        gaps,
    }
}

// Two names, and no kind to pass: a case reads as its label does.
pub fn soft(deadline: u8, runs: u16, gaps: u16) -> Task
    ensures { result ≡ soft deadline runs gaps }
{
    task(0, deadline, runs, gaps)
}

pub fn hard(deadline: u8, runs: u16, gaps: u16) -> Task
    ensures { result ≡ hard deadline runs gaps }
{
    task(1, deadline, runs, gaps)
}

pub fn blank() -> Task
    ensures { result ≡ no_task }
{
    task(0, 0, 0, 0)
}

pub fn set(count: u8, tasks: [Task; 7]) -> Set
    ensures { result ≡ records_of count tasks }
{
    Set {
        name: *b"CASE\0\0\0\0\0\0\0\0\0\0\0\0",
        count,
        tasks,
    }
}

pub fn named(name: [u8; 16], s: Set) -> Set
    ensures { result ≡ renamed name s }
{
    Set { name, ..s }
}

// Tasks, and blank records beyond them.
pub fn case_of<const N: usize>(tasks: [Task; N]) -> Set
    requires { N ≤ 7 }
    ensures { result ≡ case_of tasks.entry }
{
    let mut records = [blank(); 7];
    records[..N].copy_from_slice(&tasks);
    set(N as u8, records)
}

// Seven times the same record. Not `case_of`: the count is given, whatever the records are.
pub fn all(count: u8, t: Task) -> Set
    ensures { result ≡ records_of count (replicate 7 t) }
{
    set(count, [t; 7])
}

pub fn pair() -> Set
    ensures { result ≡ PAIR }
{
    named(
        *b"PAIR\0\0\0\0\0\0\0\0\0\0\0\0",
        case_of([hard(2, V1, V2), hard(2, V1, V2)]),
    )
}

// Source 000's example 1.
pub fn example() -> Set
    ensures { result ≡ EXAMPLE }
{
    named(
        *b"EXAMPLE-1\0\0\0\0\0\0\0",
        case_of([hard(2, V1, V3), soft(2, V1 + V2, V3)]),
    )
}

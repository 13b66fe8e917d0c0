// What a log of commands is carried out on, and each command of docs/REPLAY.md.
#![tactic(auto)]

mod run_commands;
mod run_fields;
mod set_commands;
mod set_fields;
mod table_commands;

ghost use Rattle.std.specs.Prelude.{◌≡◌};
ghost use Rattle.desk.specs.After.{held_over, held_of, Leaves, no_desk, command_after};

use commands::buffers::Lengths;
use commands::kinds;
use commands::lines::Command;
use desk_buffers::{Buffers, say};
use guard::runs;
use guard::runs::Run;
use std::fmt::Display;
use tasks::refusals::Refusal;
use tasks::sets;
use tasks::sets::Set;

// What is held beside the bytes of the buffers.
#[derive(Clone, Copy, Debug, PartialEq, Eq)]
pub struct Desk {
    pub set: Set,
    pub run: Run,
    pub lengths: Lengths,
}

// All that is held: a desk's set and run, and four lent buffers with its lengths.
#[derive(Drop)]
pub struct LentDesk<'a> {
    pub set: Set,
    pub run: Run,
    pub buffers: Buffers<'a>,
}

// Everything as at the beginning.
pub fn fresh() -> Desk
    ensures { result ≡ no_desk }
{
    Desk {
        set: sets::no_set(),
        run: runs::fresh_run(0, 0),
        lengths: Lengths {
            table: 0,
            work: 0,
            file: 0,
            text: 0,
        },
    }
}

impl Desk {
    // This desk over these four buffers.
    pub fn over<'a>(
        self,
        table: &'a mut [u8],
        work: &'a mut [u8],
        file: &'a mut [u8],
        text: &'a mut [u8],
    ) -> LentDesk<'a>
        ensures same_table { result.buffers.table.ghost_name ≡ table.entry.ghost_name }
        ensures same_work { result.buffers.work.ghost_name ≡ work.entry.ghost_name }
        ensures same_file { result.buffers.file.ghost_name ≡ file.entry.ghost_name }
        ensures same_text { result.buffers.text.ghost_name ≡ text.entry.ghost_name }
        ensures value { held_of result ≡ held_over self table.old work.old file.old text.old }
    {
        LentDesk {
            set: self.set,
            run: self.run,
            buffers: Buffers {
                table,
                work,
                file,
                text,
                lengths: self.lengths,
            },
        }
    }
}

// What a call that answers nothing else is said to have answered.
fn answer(rt: &impl Print, answer: Result<(), Refusal>) {
    match answer {
        Ok(()) => say::ok(rt),
        Err(f) => say::refused(rt, f.number(), f.place),
    }
}

// The number that a call answers, after a word, or its refusal.
fn number<T: Copy + Display>(rt: &impl Print, before: &[u8], answer: Result<T, Refusal>) {
    match answer {
        Ok(n) => say::last(rt, before, n),
        Err(f) => say::refused(rt, f.number(), f.place),
    }
}

// A command.
#[tactic(auto, unfolding(crate::specs::After::command_after))]
pub fn carry_out(rt: &impl Print, c: Command, line: &[u8], d: &mut LentDesk<'_>)
    ensures { Leaves d.old d.new (command_after c.kind c.values line.now (held_of d.old)) }
{
    match c.kind {
        kinds::RESET => {
            say::ok(rt);
            let desk = fresh();
            d.set = desk.set;
            d.run = desk.run;
            d.buffers.lengths = desk.lengths;
        }
        kinds::FILL..=kinds::TEXT => desk_buffers::carry_out(rt, c, line, &mut d.buffers),
        kinds::READ..=kinds::TEST_SET => {
            let n = d.buffers.lengths.text;
            d.set = set_commands::carry_out(rt, c, line, d.set, n, d.buffers.text);
        }
        kinds::BUILD..=kinds::PRINT => table_commands::carry_out(rt, c, d.set, &mut d.buffers),
        _ => d.run = run_commands::carry_out(rt, c, d),
    }
}

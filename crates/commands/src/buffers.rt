// The four buffers: table, work, file and text, numbered from 0.
ghost use Rattle.std.specs.Prelude.{◌≡◌, ◌≤◌};
ghost use Rattle.commands.specs.Buffers.{file_most, length_of, most_of, buffer_of};

// The present length of each buffer.
#[derive(Clone, Copy, Debug, PartialEq, Eq)]
pub struct Lengths {
    pub table: u32,
    pub work: u32,
    pub file: u32,
    pub text: u32,
}

// The buffers' numbers, and no enum: `desk_buffers::carry_out` promises what is left at every one.
pub const TABLE: u32 = 0;

pub const WORK: u32 = 1;

pub const FILE: u32 = 2;

pub const TEXT: u32 = 3;

// The most bytes of each buffer: of table and of work, of file, of text.
pub const TABLE_MOST: u32 = 65536;

pub const FILE_MOST: u32 = 70000;

pub const TEXT_MOST: u32 = 1200;

// The present length of a buffer.
#[tactic(auto, unfolding(crate::specs::Buffers::length_of))]
pub(crate) fn length(lengths: Lengths, buffer: u32) -> u32
    ensures { result ≡ length_of lengths buffer }
{
    match buffer {
        TABLE => lengths.table,
        WORK => lengths.work,
        FILE => lengths.file,
        _ => lengths.text,
    }
}

// The most bytes of a buffer.
#[tactic(auto, unfolding(crate::specs::Buffers::most_of))]
pub(crate) fn most(buffer: u32) -> u32
    ensures value { result ≡ most_of buffer }
    ensures small { result ≤ file_most }
{
    match buffer {
        TABLE | WORK => TABLE_MOST,
        FILE => FILE_MOST,
        _ => TEXT_MOST,
    }
}

// The buffer that a word names.
#[tactic(auto, unfolding(crate::specs::Buffers::buffer_of))]
pub(crate) fn named(word: &[u8]) -> Option<u32>
    ensures { result ≡ buffer_of word.now }
{
    match word {
        b"table" => Some(TABLE),
        b"work" => Some(WORK),
        b"file" => Some(FILE),
        b"text" => Some(TEXT),
        _ => None,
    }
}

// Bytes of one buffer: filled, put in, and summed.
ghost use Rattle.std.specs.Prelude.{◌≡◌, ◌+◌, ◌-◌, ◌%◌, ◌<◌, min, length, take, drop, slice_set};
ghost use Rattle.desk_buffers.specs.Bytes.{IsPrefixLen, filled, put_at, said, modulus, adler_of, part_of};

use commands::hexadecimal;

// A byte of a number that a command has from 0 to 255.
pub fn byte(n: u32) -> u8
    ensures { result ≡ n % 256 }
{
    (n % 256) as u8
}

// How many of n bytes a buffer has.
pub fn within(n: u32, buf: &[u8]) -> usize
    ensures value { result ≡ min n (length buf.now) }
    ensures counts { IsPrefixLen result buf.now }
{
    buf.len().min(n as usize)
}

// The first n bytes of a buffer, or all that it has.
#[tactic(auto, using(crate::proofs::BytesLaws::within_take))]
pub fn first<'a>(n: u32, buf: &'a [u8]) -> &'a [u8]
    ensures { result.now ≡ take n buf.now }
{
    &buf[..within(n, buf)]
}

// The length of a part, which is small.
pub fn size(part: &[u8]) -> u32
    ensures { result ≡ min (length part.now) 4294967295 }
{
    u32::try_from(part.len()).unwrap_or(u32::MAX)
}

// The word behind a line's first five bytes, as many as `text ` and `name ` have.
pub fn behind<'a>(line: &'a [u8]) -> &'a [u8]
    ensures { result.now ≡ drop 5 line.now }
{
    &line[line.len().min(5)..]
}

// So many bytes from a place on; none where the buffer has fewer, which no line that is taken asks for.
pub(crate) fn part<'a>(buf: &'a [u8], from: u32, count: u32) -> &'a [u8]
    ensures { result.now ≡ part_of from count buf.now }
{
    let start = from as usize;
    buf.get(start..start + count as usize).unwrap_or(&[])
}

// The byte at a place becomes v, if there is such a byte.
pub fn poke(buf: &mut [u8], at: usize, v: u8)
    ensures { buf.new ≡ slice_set buf.old at v }
{
    if at < buf.len() {
        buf[at] = v;
    }
}

// The bytes from one place on and before another become v.
#[tactic(auto, using(crate::proofs::BytesLaws::filled_next, crate::proofs::BytesLaws::filled_end))]
pub(crate) fn fill(buf: &mut [u8], from: usize, end: usize, v: u8)
    ensures { buf.new ≡ filled (end - from) from v buf.old }
{
    for i in from..end {
        poke(buf, i, v);
    }
}

// The bytes of a part go to the beginning of a buffer.
#[tactic(auto, using(crate::proofs::BytesLaws::copied))]
pub fn copy(part: &[u8], buf: &mut [u8])
    ensures { buf.new ≡ put_at 0 part.now buf.old }
{
    let n = part.len().min(buf.len());
    buf[..n].copy_from_slice(&part[..n]);
}

// The first bytes that a word says go to a buffer from a place on.
#[tactic(auto, using(crate::proofs::BytesLaws::said_begin, crate::proofs::BytesLaws::said_next, crate::proofs::BytesLaws::said_end))]
pub(crate) fn add(word: &[u8], count: u32, buf: &mut [u8], at: u32)
    ensures { buf.new ≡ put_at at (said word.now count 0) buf.old }
{
    let start = at as usize;
    for i in 0..count as usize {
        poke(buf, start + i, hexadecimal::byte(word, i));
    }
}

// What both halves of the Adler-32 sum stay below.
const MODULUS: u32 = 65521;

// One step of a half: the first by a byte, the second by the first.
fn step(a: u32, x: u32) -> u32
    requires { (a < modulus) × (x < modulus) }
    ensures { (result ≡ (a + x) % modulus) × (result < modulus) }
{
    (a + x) % MODULUS
}

// The Adler-32 sum.
#[tactic(auto, using(crate::proofs::BytesLaws::adler_next, crate::proofs::BytesLaws::adler_end))]
pub fn adler(buf: &[u8]) -> u32
    ensures { result ≡ adler_of buf.now }
{
    let mut a: u32 = 1;
    let mut b: u32 = 0;
    for x in buf {
        a = step(a, u32::from(*x));
        b = step(b, a);
    }
    b * 65536 + a
}

// What the formats with one table share in reading (001, 4.4 and 4.5): the data passed by words of eight bytes, then its last bits; how long its text is, or
// where it is malformed; and the text. A format gives its codes, and its own fast way through a word.

#![tactic(auto)]

ghost use Rattle.std.specs.Prelude.{◌≡◌, List, ◌++◌, ℕ, ◌+◌, ◌-◌, ◌*◌, ◌/◌, ◌<◌, ◌≤◌, length, IfSome, IfNone};
ghost use Rattle.bits.specs.Row.{bits};
ghost use Rattle.codes.specs.Chain.{Entry, single};
ghost use Rattle.codes.specs.Pack.{low};
ghost use Rattle.codes.specs.Reading.{Halts};
ghost use Rattle.codes.specs.Steps.Laid.{Readable, Placed};
ghost use Rattle.codes.specs.Steps.Measure.{Measures, countable};
ghost use Rattle.codes.specs.Steps.Taken.{FirstCode};
ghost use Rattle.codes.specs.Steps.Words.{SkimsInto, Begun};
ghost use Rattle.compact.specs.Table.{TableLaws, NoneBegins, NextCode, Skims};

use codes::{Code, Extent, Laid, MalformedAt, Measured, Skimmed};

// A table of codes in which nothing is announced.
pub trait Table {
    ghost table: { List Entry };

    ghost laws: { TableLaws table };

    // The code that begins nine bits, if one does.
    fn first_code(nine: u64) -> Option<Code>
        requires { nine < 512 }
        ensures code { IfSome result (FirstCode table nine) }
        ensures none { IfNone result (NoneBegins table nine) };
}

// A format's own fast way through a word, from the first of its `have` bits on.
pub trait ByWords: Table {
    // The codes in the lowest `have` bits of a number, up to its last few bits, or to where none begins.
    fn skim(held: u64, have: u64) -> Skimmed
        requires { (57 ≤ have) × (have ≤ 64) }
        ensures { Skims Self.table held have result };

    // The characters of the codes in the lowest `have` bits of a number, up to its last few bits, from place n on.
    fn lay(held: u64, have: u64, out: &mut [u8], n: usize) -> Laid
        requires { (57 ≤ have) × (have ≤ 64) × (n ≤ length out.old) × Begun (single Self.table 7) held have (length out.old - n) }
        ensures { SkimsInto (single Self.table 7) held have out.old out.new n result };
}

// Codes passed one by one, as long as there are nine bits, or to where none begins.
pub fn skim_each<T: Table>(held: u64, have: u64) -> Skimmed
    requires { have ≤ 64 }
    ensures { Skims T.table held have result }
{
    let mut left = have;
    let mut codes: usize = 0;
    let mut count: usize = 0;
    while 9 <= left {
        let Some(code) = T::first_code(bit_buffer::window(held, left)) else {
            return Skimmed { left, codes, count };
        };
        left -= code.width;
        codes += 1;
        count += code.count;
    }
    Skimmed { left, codes, count }
}

// Eight bytes as a number.
fn eight(word: &[u8; 8]) -> u64
    ensures { low 64 result ≡ bits word.now }
{
    u64::from_be_bytes(*word)
}

// The code that begins the lowest `have` bits of a number, if one does and its bits are all there.
fn next_code<T: Table>(held: u64, have: u64) -> Option<Code>
    requires { have ≤ 64 }
    ensures code { IfSome result (NextCode T.table held have) }
    ensures none { IfNone result (Halts (single T.table 7) 0 (low have held)) }
{
    let code = T::first_code(bit_buffer::window(held, have))?;
    if have < code.width {
        return None;
    }
    Some(code)
}

// What the last bits come to, `have` of them.
fn measure_last<T: Table>(held: u64, have: u64) -> Measured
    requires { have ≤ 64 }
    ensures { Measures (single T.table 7) (low have held) result }
{
    let mut left = have;
    let mut codes: usize = 0;
    let mut n: usize = 0;
    while !bit_buffer::at_end(held, left) {
        let Some(code) = next_code::<T>(held, left) else {
            return Err(MalformedAt {
                bit: (have - left) as usize,
                codes,
            });
        };
        left -= code.width;
        codes += 1;
        n += code.count;
    }
    Ok(Extent {
        characters: n,
        codes,
    })
}

// The length of the text, or where the data is malformed.
pub fn measure<T: ByWords>(sent: &[u8]) -> Measured
    requires { length sent.now < countable }
    ensures { Measures (single T.table 7) (bits sent.now) result }
{
    let mut rest = sent;
    let mut skip: u64 = 0;
    let mut codes: usize = 0;
    let mut n: usize = 0;
    while let Some((word, _)) = rest.split_first_chunk::<8>() {
        let skimmed = T::skim(eight(word), 64 - skip);
        let passed = 64 - skimmed.left;
        if 24 < skimmed.left {
            let before = sent.len() - rest.len();
            return Err(MalformedAt {
                bit: before * 8 + passed as usize,
                codes: codes + skimmed.codes,
            });
        }
        let (_, after) = rest.split_at((passed / 8) as usize);
        rest = after;
        skip = passed % 8;
        codes += skimmed.codes;
        n += skimmed.count;
    }
    let last = bit_buffer::last_bits(rest, skip);
    let told = measure_last::<T>(last.held, last.have);
    bit_buffer::with_front(told, n, codes, sent.len() * 8 - last.have as usize)
}

// The text of the last bits, `have` of them, from place n on; the place after it.
fn read_last<T: Table>(held: u64, have: u64, out: &mut [u8], n: usize) -> usize
    requires { (have ≤ 64) × (n ≤ length out.old) × Readable (single T.table 7) (low have held) (length out.old - n) }
    ensures { Placed (single T.table 7) (low have held) out.old out.new n result }
{
    let mut left = have;
    let mut at = n;
    while !bit_buffer::at_end(held, left) {
        let Some(code) = next_code::<T>(held, left) else {
            unreachable!()
        };
        bit_buffer::put(out, at, code);
        left -= code.width;
        at += code.count;
    }
    at
}

// The text of the data, at the front of the buffer; its length.
pub fn put_text<T: ByWords>(sent: &[u8], out: &mut [u8]) -> usize
    requires { Readable (single T.table 7) (bits sent.now) (length out.old) }
    ensures { Placed (single T.table 7) (bits sent.now) out.old out.new 0 result }
{
    let mut rest = sent;
    let mut skip: u64 = 0;
    let mut n: usize = 0;
    while let Some((word, _)) = rest.split_first_chunk::<8>() {
        let laid = T::lay(eight(word), 64 - skip, out, n);
        let passed = 64 - laid.left;
        let (_, after) = rest.split_at((passed / 8) as usize);
        rest = after;
        skip = passed % 8;
        n += laid.count;
    }
    let last = bit_buffer::last_bits(rest, skip);
    read_last::<T>(last.held, last.have, out, n)
}

// Compact Full ASCII (001, 4.5), read: how long the text of its data is, or where the data is malformed; and the text. The table is in full_ascii.

#![tactic(auto)]

ghost use Rattle.std.specs.Prelude.{true, ◌≡◌, ℕ, ◌+◌, ◌-◌, ◌/◌, ◌<◌, ◌≤◌, length};
ghost use Rattle.bits.specs.Row.{bits};
ghost use Rattle.codes.specs.Steps.Laid.{Readable, Placed};
ghost use Rattle.codes.specs.Steps.Measure.{Measures, countable};
ghost use Rattle.codes.specs.Pack.{low};
ghost use Rattle.codes.specs.Steps.Taken.{FirstCode, one_character};
ghost use Rattle.codes.specs.Steps.Words.{SkimsInto, Begun};
ghost use Rattle.compact.specs.Table.{Skims};
ghost use Rattle.full_ascii.specs.Table.{table, scheme};
ghost use Rattle.full_ascii_reader.specs.Steps.Passing.{Plain, table_laws};

use codes::{Code, Laid, Measured, Skimmed};
use compact::{ByWords, Table};
use full_ascii::{Character, Special};

// A code that says one character.
fn one_character(width: u64, first: u8) -> Code
    ensures { result ≡ one_character width first }
{
    Code {
        width,
        count: 1,
        first,
        second: 0,
    }
}

// The code that begins nine bits: any nine bits begin one.
fn first_code(w: u64) -> Code
    requires { w < 512 }
    ensures { FirstCode table w result }
{
    if w < 256 {
        return one_character(6, (w / 8 + 32) as u8);
    }
    if w < Special::HT {
        return one_character(7, (w / 4) as u8);
    }
    match w {
        Special::HT => one_character(9, Character::HT),
        Special::CR => one_character(9, Character::CR),
        Special::LF => one_character(9, Character::LF),
        _ => Code {
            width: 9,
            count: 2,
            first: Character::CR,
            second: Character::LF,
        },
    }
}

// The code of six or seven bits that begins seven: any seven bits that are not all ones begin one.
fn first_plain(bits: u64) -> Code
    requires { bits < 127 }
    ensures { (6 ≤ result.width) × (result.width ≤ 7) × (result.count ≡ 1) × ((w : ℕ) → w / 4 ≡ bits → FirstCode table w result) }
{
    let width = 6 + bits / 64;
    if bits < 64 {
        return Code {
            width,
            count: 1,
            first: (bits / 2 + 32) as u8,
            second: 0,
        };
    }
    Code {
        width,
        count: 1,
        first: bits as u8,
        second: 0,
    }
}

// Whether no seven ones stand in a row in a number. Then no code of nine bits begins in it.
fn plain(held: u64) -> bool
    ensures { result ≡ true → Plain held }
{
    let two = held & (held >> 1);
    let four = two & (two >> 2);
    four & (four >> 3) == 0
}

// Eight codes of six or seven bits passed.
fn skim_plain(held: u64, have: u64) -> Skimmed
    requires { (57 ≤ have) × (have ≤ 64) × Plain held }
    ensures { Skims table held have result }
{
    let mut top = held << (64 - have);
    let mut left = have;
    let mut codes: usize = 0;
    let mut count: usize = 0;
    for _ in 0..8u64 {
        let c = first_plain(top >> 57);
        top <<= c.width;
        left -= c.width;
        codes += 1;
        count += c.count;
    }
    Skimmed { left, codes, count }
}

// The characters of eight codes of six or seven bits, from place n on.
fn put_plain(held: u64, have: u64, out: &mut [u8], n: usize) -> Laid
    requires { (57 ≤ have) × (have ≤ 64) × Plain held × (n ≤ length out.old) × Begun scheme held have (length out.old - n) }
    ensures { SkimsInto scheme held have out.old out.new n result }
{
    let mut top = held << (64 - have);
    let mut left = have;
    for k in 0..8 {
        let c = first_plain(top >> 57);
        bit_buffer::put(out, n + k, c);
        top <<= c.width;
        left -= c.width;
    }
    Laid { left, count: 8 }
}

// The characters of codes one by one, as long as there are nine bits.
fn put_each(held: u64, have: u64, out: &mut [u8], n: usize) -> Laid
    requires { (have ≤ 64) × (n ≤ length out.old) × Begun scheme held have (length out.old - n) }
    ensures { SkimsInto scheme held have out.old out.new n result }
{
    let mut left = have;
    let mut count: usize = 0;
    while 9 <= left {
        let c = first_code(bit_buffer::window(held, left));
        bit_buffer::put(out, n + count, c);
        left -= c.width;
        count += c.count;
    }
    Laid { left, count }
}

// The format's table, read.
struct FullAscii;

impl Table for FullAscii {
    ghost table = { table };

    ghost laws = { table_laws };

    fn first_code(nine: u64) -> Option<Code> {
        Some(first_code(nine))
    }
}

impl ByWords for FullAscii {
    fn skim(held: u64, have: u64) -> Skimmed {
        if plain(held) {
            return skim_plain(held, have);
        }
        compact::skim_each::<FullAscii>(held, have)
    }

    fn lay(held: u64, have: u64, out: &mut [u8], n: usize) -> Laid {
        if plain(held) {
            return put_plain(held, have, out, n);
        }
        put_each(held, have, out, n)
    }
}

// The length of the text, or where the data is malformed.
pub fn measure(s: &[u8]) -> Measured
    requires { length s.now < countable }
    ensures { Measures scheme (bits s.now) result }
{
    compact::measure::<FullAscii>(s)
}

// The text of the data, at the front of the buffer; its length.
pub fn put_text(s: &[u8], out: &mut [u8]) -> usize
    requires { (length s.now < countable) × Readable scheme (bits s.now) (length out.old) }
    ensures { Placed scheme (bits s.now) out.old out.new 0 result }
{
    compact::put_text::<FullAscii>(s, out)
}

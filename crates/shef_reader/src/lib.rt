// Compact SHEF Alphanumeric ASCII (001, 4.4), read: how long the text of its data is, or where the data is malformed; and the text. The table is in shef.

#![tactic(auto)]

ghost use Rattle.std.specs.Prelude.{◌≡◌, ℕ, ◌+◌, ◌-◌, ◌*◌, ◌/◌, ◌%◌, ◌^◌, ◌<◌, ◌≤◌, true, length};
ghost use Rattle.bits.specs.Row.{bits};
ghost use Rattle.codes.specs.Pack.{low};
ghost use Rattle.codes.specs.Steps.Laid.{Readable, Placed};
ghost use Rattle.codes.specs.Steps.Measure.{Measures, countable};
ghost use Rattle.codes.specs.Steps.Taken.{FirstCode};
ghost use Rattle.codes.specs.Steps.Words.{SkimsInto, Begun};
ghost use Rattle.compact.specs.Table.{Skims};
ghost use Rattle.shef.specs.Table.{table, scheme};
ghost use Rattle.shef_reader.specs.Steps.Taken.{Fives, characters_in};
ghost use Rattle.shef_reader.specs.Steps.Reading.{table_laws};

use codes::{Code, Laid, Measured, Skimmed};
use compact::{ByWords, Table};

const LF: u8 = 10;

// The first character of each code, by the six bits that it begins.
const CHARACTERS: [u8; 63] = *b"00112233445566778899  ++,,--..//ABCDEFGHIJKLMNOPQRSTUVWXYZ\r#=:;";

// How many characters each code says, by the six bits that it begins; of six ones, that begin none, more than nine codes do.
const COUNTS: [u8; 64] = [
    1, 1, 1, 1, 1, 1, 1, 1, 1, 1, 1, 1, 1, 1, 1, 1, 1, 1, 1, 1, 1, 1, 1, 1, 1, 1, 1, 1, 1, 1, 1, 1,
    1, 1, 1, 1, 1, 1, 1, 1, 1, 1, 1, 1, 1, 1, 1, 1, 1, 1, 1, 1, 1, 1, 1, 1, 1, 1, 2, 1, 1, 1, 1,
    19,
];

// The code of CR with LF after it.
const LINE_END: u64 = 58;

// Six ones are no code.
const SIX_ONES: u64 = 63;

// How many bits the code has that begins six bits: the first of them tells.
fn width_of(six: u64) -> u64
    ensures { result ≡ 5 + six / 32 }
{
    5 + six / 32
}

// A word shifted on by the bits of the code that begins it. A shift by a number that is worked out takes longer.
fn shifted(top: u64, six: u64) -> u64
    requires { six < 64 }
    ensures { result ≡ top * 2 ^ (5 + six / 32) % 2 ^ 64 }
{
    let five = top << 5;
    five.wrapping_add(five & (six / 32 * 0xffff_ffff_ffff_ffff))
}

// How many characters the code says that begins six bits.
fn count_of(six: u64) -> usize
    ensures { result ≡ characters_in six }
{
    if six == LINE_END {
        return 2;
    }
    1
}

// The same, and for six ones more than nine codes say.
fn count_at(six: u64) -> usize
    requires { six < 64 }
    ensures code { six < 63 → result ≡ characters_in six }
    ensures ones { six ≡ 63 → result ≡ 19 }
{
    COUNTS[six as usize] as usize
}

// The code that begins six bits: any that are not all ones begin one.
fn code_of(six: u64) -> Code
    requires { six < 63 }
    ensures { (result.width ≡ 5 + six / 32) × ((w : ℕ) → w / 8 ≡ six → FirstCode table w result) }
{
    Code {
        width: width_of(six),
        count: count_of(six),
        first: CHARACTERS[six as usize],
        second: LF,
    }
}

// The format's table, read.
struct Shef;

impl Table for Shef {
    ghost table = { table };

    ghost laws = { table_laws };

    fn first_code(nine: u64) -> Option<Code> {
        let six = nine / 8;
        if six == SIX_ONES {
            return None;
        }
        Some(code_of(six))
    }
}

// Whether each of ten codes from the top of a word on has five bits, as those of digits have: none of their first bits is 1.
fn ten_fives(top: u64) -> bool
    ensures { result ≡ true → Fives top }
{
    top & 0x8421_0842_1084_0000 == 0
}

// Nine codes passed; where six ones are among them, the codes up to these.
fn skim_nine(held: u64, have: u64) -> Skimmed
    requires { (57 ≤ have) × (have ≤ 64) }
    ensures { Skims table held have result }
{
    let mut top = held << (64 - have);
    let mut left = have;
    let mut codes: usize = 0;
    let mut count: usize = 0;
    for _ in 0..9u64 {
        let six = top >> 58;
        top = shifted(top, six);
        left -= width_of(six);
        codes += 1;
        count += count_at(six);
    }
    if count <= 18 {
        return Skimmed { left, codes, count };
    }
    compact::skim_each::<Shef>(held, have)
}

// The characters of ten codes of five bits, from place n on.
fn put_fives(held: u64, have: u64, out: &mut [u8], n: usize) -> Laid
    requires { (57 ≤ have) × (have ≤ 64) × (n ≤ length out.old) × Begun scheme held have (length out.old - n) × Fives (held * 2 ^ (64 - have) % 2 ^ 64) }
    ensures { SkimsInto scheme held have out.old out.new n result }
{
    let mut top = held << (64 - have);
    for k in 0..10 {
        out[n + k] = CHARACTERS[(top >> 58) as usize];
        top <<= 5;
    }
    Laid {
        left: have - 50,
        count: 10,
    }
}

// The characters of nine codes, from place n on.
fn put_nine(held: u64, have: u64, out: &mut [u8], n: usize) -> Laid
    requires { (57 ≤ have) × (have ≤ 64) × (n ≤ length out.old) × Begun scheme held have (length out.old - n) }
    ensures { SkimsInto scheme held have out.old out.new n result }
{
    let mut top = held << (64 - have);
    let mut left = have;
    let mut count: usize = 0;
    for _ in 0..9u64 {
        let six = top >> 58;
        let c = code_of(six);
        bit_buffer::put(out, n + count, c);
        top = shifted(top, six);
        left -= c.width;
        count += c.count;
    }
    Laid { left, count }
}

impl ByWords for Shef {
    // Ten codes of five bits, or nine.
    fn skim(held: u64, have: u64) -> Skimmed {
        if ten_fives(held << (64 - have)) {
            return Skimmed {
                left: have - 50,
                codes: 10,
                count: 10,
            };
        }
        skim_nine(held, have)
    }

    // Ten codes of five bits, or nine.
    fn lay(held: u64, have: u64, out: &mut [u8], n: usize) -> Laid {
        if ten_fives(held << (64 - have)) {
            return put_fives(held, have, out, n);
        }
        put_nine(held, have, out, n)
    }
}

// The length of the text, or where the data is malformed.
pub fn measure(s: &[u8]) -> Measured
    requires { length s.now < countable }
    ensures { Measures scheme (bits s.now) result }
{
    compact::measure::<Shef>(s)
}

// The text of the data, at the front of the buffer; its length.
pub fn put_text(s: &[u8], out: &mut [u8]) -> usize
    requires { (length s.now < countable) × Readable scheme (bits s.now) (length out.old) }
    ensures { Placed scheme (bits s.now) out.old out.new 0 result }
{
    compact::put_text::<Shef>(s, out)
}

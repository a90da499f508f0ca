// Compact Pseudo Binary written: which characters have codes, how many bytes our data has, and the data.

#![tactic(auto)]

ghost use Rattle.std.specs.Prelude.{◌≡◌, ◌+◌, ◌*◌, ◌/◌, ◌≤◌, ◌<◌, ◌^◌, length, take, drop};
ghost use Rattle.std.specs.Int.Count.{count_leading_zeros};
ghost use Rattle.codes.specs.Coded.{alone};
ghost use Rattle.codes.specs.Pack.{written};
ghost use Rattle.codes.specs.Steps.Sending.{SendsBits};
ghost use Rattle.codes.specs.Steps.Size.{Needs};
ghost use Rattle.pseudo_binary_writer.specs.Steps.Sending.{Between, FirstIndicatorOf, PutsOurs, ExtentOf, NextOf, two_values, four_values, eight_values};
ghost use Rattle.pseudo_binary.specs.Table.{Kind, coded, AllCoded, values};
ghost use Rattle.pseudo_binary.specs.Writer.{run, ours, Alike};

use codes::{Held, Needed, Unfit};

// Whether a character has a code.
pub fn is_coded(c: u8) -> bool
    ensures { result ≡ coded c }
{
    match c {
        b' ' => true,
        b'/' => true,
        b'?'..=127 => true,
        _ => false,
    }
}

// Codes to be sent: their bits as a number, how many they are, how many values are announced after them, and how many characters they say.
#[derive(Clone, Copy)]
struct Sent {
    pub bits: u64,
    pub width: u64,
    pub values: usize,
    pub count: usize,
}

impl Sent {
    // The most values that one indicator announces.
    pub const MOST_VALUES: usize = 128;
    // The most spaces or slashes that one says.
    pub const MOST_REPEATED: usize = 16;
}

// How many values stand in a row at place i, counted up to `most`. The first `known` of them are known to.
fn values_from(text: &[u8], i: usize, most: usize, known: usize) -> usize
    requires all_coded { AllCoded text.now }
    requires known_le_most { (known ≤ most) × (i + known ≤ length text.now) × Alike values (take known (drop i text.now)) }
    ensures { result ≡ run values most (drop i text.now) }
{
    let end = most.min(text.len() - i);
    for n in known..end {
        if text[i + n] < b'?' {
            return n;
        }
    }
    end
}

// How often a character that is a kind by itself stands in a row at place i, counted up to `most`.
fn run_of(text: &[u8], i: usize, character: u8, most: usize) -> usize
    requires { (i ≤ length text.now) × ((k : Kind) × Between k character character) }
    ensures { (k : Kind) → Between k character character → result ≡ run k most (drop i text.now) }
{
    let end = most.min(text.len() - i);
    for n in 0..end {
        if text[i + n] != character {
            return n;
        }
    }
    end
}

// The top bit of each of the eight characters at place i that is no value: 190 less the character has it unless the character is 63 or more. As many of
// them, from the first on, are values as whole bytes are zeros.
fn others_at(text: &[u8], i: usize) -> u64
    requires { AllCoded text.now × (i + 8 ≤ length text.now) }
    ensures { Alike values (take (count_leading_zeros 64 result / 8) (drop i text.now)) }
{
    (0xbebe_bebe_bebe_bebe - bit_buffer::eight(text, i)) & 0x8080_8080_8080_8080
}

// A number of values that stand in a row at place i: up to seven more may stand at the end of the text, or where `most` comes near.
fn values_by_eight(text: &[u8], i: usize, most: usize) -> usize
    requires { AllCoded text.now × (i ≤ length text.now) }
    ensures { (result ≤ most) × (i + result ≤ length text.now) × Alike values (take result (drop i text.now)) }
{
    let mut n: usize = 0;
    while 8 <= most - n {
        if text.len() - i - n < 8 {
            return n;
        }
        let others = others_at(text, i + n);
        if others != 0 {
            return n + (others.leading_zeros() / 8) as usize;
        }
        n += 8;
    }
    n
}

// How many values stand in a row at place i, counted up to as many as one indicator announces.
fn values_at(text: &[u8], i: usize) -> usize
    requires { AllCoded text.now × (i ≤ length text.now) }
    ensures { result ≡ run values 128 (drop i text.now) }
{
    let known = values_by_eight(text, i, Sent::MOST_VALUES);
    values_from(text, i, Sent::MOST_VALUES, known)
}

// The first of our indicators of the text from i on: it counts as many characters of the first one's kind as it can.
fn next_indicator(text: &[u8], i: usize) -> Sent
    requires { AllCoded text.now × (i < length text.now) }
    ensures { FirstIndicatorOf (drop i text.now) result }
{
    match text[i] {
        b' ' => {
            let count = run_of(text, i, b' ', Sent::MOST_REPEATED);
            Sent {
                bits: count as u64 - 1,
                width: 6,
                values: 0,
                count,
            }
        }
        b'/' => {
            let count = run_of(text, i, b'/', Sent::MOST_REPEATED);
            Sent {
                bits: count as u64 - 1 + 0x10,
                width: 6,
                values: 0,
                count,
            }
        }
        _ => {
            let values = values_at(text, i);
            Sent {
                bits: values as u64 - 1 + 0x80,
                width: 8,
                values,
                count: 0,
            }
        }
    }
}

// What an indicator and the values that it announces take: so many bits, for so many characters.
#[derive(Clone, Copy)]
struct Extent {
    pub bits: usize,
    pub count: usize,
}

// What the first of our indicators of the text from i on takes.
fn next_extent(text: &[u8], i: usize) -> Extent
    requires { AllCoded text.now × (i < length text.now) }
    ensures { ExtentOf (drop i text.now) result }
{
    let c = text[i];
    if c < b'?' {
        return Extent {
            bits: 6,
            count: run_of(text, i, c, Sent::MOST_REPEATED),
        };
    }
    let values = values_at(text, i);
    Extent {
        bits: 8 + 6 * values,
        count: values,
    }
}

// How many bytes our data of the text has, or that they are more than `most`: the loop ends where that is certain.
pub fn coded_length(text: &[u8], most: u16) -> Needed
    requires { AllCoded text.now }
    ensures { Needs most (alone coded) text.now (written (ours text.now)) result }
{
    let limit = most as usize * 8;
    let mut i: usize = 0;
    let mut n: usize = 0;
    while i < text.len() {
        let extent = next_extent(text, i);
        n += extent.bits;
        if limit < n {
            return Err(Unfit::TooMany);
        }
        i += extent.count;
    }
    Ok((n + 7) / 8)
}

// The values of two characters in a row, from place i on, as one number.
fn two_values(text: &[u8], i: usize) -> u64
    requires { i + 2 ≤ length text.now }
    ensures { result ≡ two_values text.now i }
{
    (text[i] % 64) as u64 * 64 + (text[i + 1] % 64) as u64
}

// And of four.
fn four_values(text: &[u8], i: usize) -> u64
    requires { i + 4 ≤ length text.now }
    ensures { result ≡ four_values text.now i }
{
    let two = (text[i] % 64) as u64 * 64 + (text[i + 1] % 64) as u64;
    (two * 64 + (text[i + 2] % 64) as u64) * 64 + (text[i + 3] % 64) as u64
}

// What our writer sends next of the text from i on, where so many values are announced: four of them, two, one, or an indicator.
fn next_codes(text: &[u8], i: usize, announced: usize) -> Sent
    requires all_coded { AllCoded text.now × (i < length text.now) }
    requires announced_in_bounds { (i + announced ≤ length text.now) × Alike values (take announced (drop i text.now)) }
    ensures { NextOf announced (drop i text.now) result }
{
    if 4 <= announced {
        return Sent {
            bits: four_values(text, i),
            width: 24,
            values: announced - 4,
            count: 4,
        };
    }
    if 2 <= announced {
        return Sent {
            bits: two_values(text, i),
            width: 12,
            values: announced - 2,
            count: 2,
        };
    }
    if 0 < announced {
        return Sent {
            bits: (text[i] % 64) as u64,
            width: 6,
            values: announced - 1,
            count: 1,
        };
    }
    next_indicator(text, i)
}

// The values of eight characters in a row, from place i on: of the first four in the upper half of a word, of the others in the lower.
fn gathered(text: &[u8], i: usize) -> u64
    requires { i + 8 ≤ length text.now }
    ensures { result ≡ four_values text.now i * 4294967296 + four_values text.now (i + 4) }
{
    let word = bit_buffer::eight(text, i);
    let pairs = (word & 0x3f00_3f00_3f00_3f00) / 4 + (word & 0x003f_003f_003f_003f);
    (pairs & 0x0fff_0000_0fff_0000) / 16 + (pairs & 0x0000_0fff_0000_0fff)
}

// The values of eight characters in a row, from place i on, sent at once.
fn send_eight(text: &[u8], i: usize, out: &mut [u8], b: Held) -> Held
    requires { (i + 8 ≤ length text.now) × (b.have < 32) × (b.n + (b.have + 48) / 8 ≤ length out.old) }
    ensures { SendsBits out.old out.new b (eight_values text.now i) result }
{
    let values = gathered(text, i);
    let first = bit_sender::send(out, b, values / 0x1_0000_0000, 24);
    bit_sender::send(out, first, values % 0x1_0000_0000, 24)
}

// What our writer builds of the text, at the front of the buffer; how many bytes it is.
pub fn put_data(text: &[u8], out: &mut [u8]) -> usize
    requires { AllCoded text.now × (length (written (ours text.now)) ≤ length out.old) }
    ensures { PutsOurs text.now out.old out.new result }
{
    let mut b = Held {
        n: 0,
        held: 0,
        have: 0,
    };
    let mut i: usize = 0;
    let mut announced: usize = 0;
    while i < text.len() {
        if 8 <= announced {
            b = send_eight(text, i, out, b);
            i += 8;
            announced -= 8;
        } else {
            let next = next_codes(text, i, announced);
            b = bit_sender::send(out, b, next.bits, next.width);
            i += next.count;
            announced = next.values;
        }
    }
    bit_sender::flush(out, b.n, b.held, b.have)
}

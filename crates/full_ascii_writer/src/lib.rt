// Compact Full ASCII (001, 4.5), written: whether a character has a code, how long the data of a text is, and the data. What our writer builds is in
// full_ascii.

#![tactic(auto)]

ghost use Rattle.std.specs.Prelude.{◌≡◌, ◌<◌, ◌≤◌, T, length, drop};
ghost use Rattle.bits.specs.Says.{Says};
ghost use Rattle.codes.specs.Coded.{alone};
ghost use Rattle.codes.specs.Pack.{written};
ghost use Rattle.codes.specs.Steps.Size.{Needs};
ghost use Rattle.full_ascii.specs.Writer.{coded, AllCoded, ours, LineEnd};
ghost use Rattle.full_ascii_writer.specs.Steps.Sending.{OwnOf, FirstCodesOf, codes_from, bits_for, FourPlain, PutsOurs};
ghost use Rattle.full_ascii_writer.specs.Steps.Writing.{write-laws};

use codes::{Held, Needed, Sent};
use full_ascii::{Character, Special};
use text_sender::Writes;

// The code of a character by itself: a match over its ranges and the control codes picks number and width (RULES, Forms of the code).
fn own_code(c: u8) -> Sent
    requires { T (coded c) }
    ensures { OwnOf c result }
{
    let (bits, width) = match c {
        Character::HT => (Special::HT, 9),
        Character::CR => (Special::CR, 9),
        Character::LF => (Special::LF, 9),
        32..=63 => (c as u64 - 32, 6),
        // 64 to 126
        _ => (c as u64, 7),
    };
    Sent {
        bits,
        width,
        count: 1,
    }
}

// Whether the character at i is a CR that has LF next.
fn pair_at(text: &[u8], i: usize) -> bool
    requires { i < length text.now }
    ensures { Says result (LineEnd (drop i text.now)) }
{
    text[i] == Character::CR && i + 1 < text.len() && text[i + 1] == Character::LF
}

// The first of our codes of the text from i on.
fn next_code(text: &[u8], i: usize) -> Sent
    requires { AllCoded text.now × (i < length text.now) }
    ensures { FirstCodesOf text.now i 9 result }
{
    if pair_at(text, i) {
        return Sent {
            bits: Special::PAIR,
            width: 9,
            count: 2,
        };
    }
    own_code(text[i])
}

// Whether the character has a code: no branch, so that a loop over a text is done for many characters at once.
pub fn is_coded(c: u8) -> bool
    ensures { result ≡ coded c }
{
    (c == Character::HT)
        | ((c == Character::LF) | ((c == Character::CR) | ((32 <= c) & (c <= 126))))
}

// Whether four characters are there from i on and none of them is a control character: one test, for all four are mostly plain.
fn four_plain(text: &[u8], i: usize) -> bool
    requires { i ≤ length text.now }
    ensures { Says result (FourPlain text.now i) }
{
    if text.len() - i < 4 {
        return false;
    }
    (32 <= text[i]) & ((32 <= text[i + 1]) & ((32 <= text[i + 2]) & (32 <= text[i + 3])))
}

// The codes of four characters that are no control characters.
fn four_codes(text: &[u8], i: usize) -> Sent
    requires { AllCoded text.now × FourPlain text.now i }
    ensures { FirstCodesOf text.now i 28 result }
{
    let first = own_code(text[i]);
    let second = own_code(text[i + 1]);
    let third = own_code(text[i + 2]);
    let fourth = own_code(text[i + 3]);
    bit_sender::four_joined(first, second, third, fourth)
}

// Compact Full ASCII, as the loops of text_sender ask of it.
pub struct FullAscii;

impl Writes for FullAscii {
    ghost coded = { alone coded };

    ghost ours = { ours };

    ghost bits_from = { codes_from };

    ghost units_for = { bits_for };

    ghost UNIT = { 1 };

    ghost FEWEST = { 9 };

    ghost laws = { write-laws };

    // a line end has nine for two
    const FEWEST: usize = 9;

    const UNIT: usize = 1;

    // Those of the character's own code. The code of a line end is counted at its CR, whose own has as many, and nothing at its LF.
    fn units_for(before: u8, c: u8) -> u16 {
        if (before == Character::CR) & (c == Character::LF) {
            return 0;
        }
        own_code(c).width as u16
    }

    // One code, or four.
    fn next_codes(text: &[u8], i: usize) -> Sent {
        if four_plain(text, i) {
            return four_codes(text, i);
        }
        next_code(text, i)
    }

    // Nothing.
    fn send_end(_text: &[u8], _out: &mut [u8], b: Held) -> Held {
        b
    }
}

// How many bytes our data of the text has, or that they are more than the most that may be.
pub fn coded_length(text: &[u8], most: u16) -> Needed
    requires { AllCoded text.now }
    ensures { Needs most (alone coded) text.now (written (ours text.now)) result }
{
    text_sender::coded_length::<FullAscii>(text, most)
}

// What our writer builds of the text, at the front of the buffer; how many bytes it is.
pub fn put_data(text: &[u8], out: &mut [u8]) -> usize
    requires { AllCoded text.now × (length (written (ours text.now)) ≤ length out.old) }
    ensures { PutsOurs text.now out.old out.new result }
{
    text_sender::put_data::<FullAscii>(text, out)
}

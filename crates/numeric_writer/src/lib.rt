// Compact Numeric ASCII (001, 4.3), written: whether a character has a code where it stands, how long the data of a text is, and the data. What our writer
// builds is in numeric.

#![tactic(auto)]

ghost use Rattle.std.specs.Prelude.{◌≡◌, ◌+◌, ◌<◌, ◌≤◌, T, length, take, get_or};
ghost use Rattle.codes.specs.Chain.{codes};
ghost use Rattle.codes.specs.Coded.{last_of};
ghost use Rattle.codes.specs.Pack.{written};
ghost use Rattle.codes.specs.Steps.Laid.{Fronted};
ghost use Rattle.codes.specs.Steps.Size.{Needs};
ghost use Rattle.numeric.specs.Steps.InFour.{bits_from};
ghost use Rattle.numeric.specs.Writer.{own, clashes, coded_behind, coded, AllCoded, ours};
ghost use Rattle.numeric_writer.specs.Steps.Sending.{stands, of_signs, codes_for, OwnOf, Packed, FirstCodesOf};
ghost use Rattle.numeric_writer.specs.Steps.Writing.{write-laws};

use codes::{Held, Needed, Sent};
use text_sender::Writes;

// Whether two signs go for a character: no branch here, nor in the three that follow, so that a loop over a text is done for many characters at once.
fn of_signs(c: u8) -> bool
    ensures { result ≡ of_signs c }
{
    (c == b'\r') | ((c == b'\n') | ((c == b'#') | ((c == b'=') | (c == b'E'))))
}

// Whether a character stands in one of the tables.
fn in_tables(c: u8) -> bool
    ensures { result ≡ stands c }
{
    of_signs(c) | ((c == b' ') | ((b'+' <= c) & (c <= b':')))
}

// Whether the character before is a base character that would make a sequence of Table 5 with the first that goes for this one.
fn clashing(before: u8, c: u8) -> bool
    ensures { result ≡ clashes before (codes (own before c)) }
{
    let sign = of_signs(c) | ((c == b'+') | (c == b'-'));
    let point = (c == b'.') | (c == b':');
    (((before == b'+') | (before == b'-')) & sign) | ((before == b'.') & point)
}

// Whether a character that comes after `before` has a code.
fn coded_after(before: u8, c: u8) -> bool
    ensures { result ≡ coded_behind before c }
{
    in_tables(c) & !clashing(before, c)
}

// Whether the character at i has a code where it stands.
pub fn is_coded(text: &[u8], i: usize) -> bool
    requires { i < length text.now }
    ensures { result ≡ coded (take i text.now) (get_or text.now i 0) }
{
    coded_after(bit_sender::before_at(text, i), text[i])
}

// How many base characters go for a character that comes after `before`.
fn codes_for(before: u8, c: u8) -> u16
    requires { T (stands c) }
    ensures { (result ≡ codes_for before c) × (result ≤ 2) }
{
    if (before == b'\r') & (c == b'\n') {
        return 0;
    }
    if of_signs(c) | (c == b':') {
        return 2;
    }
    1
}

// What goes for a character that is no line end, by Table 4 and Table 5: how many bits, and in the lowest eight the codes. The base characters but the space
// have the number of their code in their lowest four bits. Of a match LLVM makes a table, and a logger has no room for one.
fn packed_codes(c: u8) -> u16
    requires { T (stands c) × (32 ≤ c) }
    ensures { Packed c result }
{
    if (c == b' ') | ((b'+' <= c) & (c <= b'9')) {
        return bit_sender::pick(c == b' ', 0x40A, 0x400 + (c % 16) as u16);
    }
    // # or E
    let hash = bit_sender::pick(c == b'#', 0x8BD, 0x8DD);
    let colon = bit_sender::pick(c == b':', 0x8EE, hash);
    bit_sender::pick(c == b'=', 0x8DB, colon)
}

// What goes for a line end: nothing where it is LF right behind CR.
fn end_codes(before: u8, c: u8) -> Sent
    requires { T (stands c) × (c < 32) }
    ensures { OwnOf before c result }
{
    if (before == b'\r') & (c == b'\n') {
        return Sent {
            bits: 0,
            width: 0,
            count: 1,
        };
    }
    Sent {
        bits: 0xBB,
        width: 8,
        count: 1,
    }
}

// What goes for a character that comes after `before`.
fn own_codes(before: u8, c: u8) -> Sent
    requires { T (stands c) }
    ensures { OwnOf before c result }
{
    if c < 32 {
        return end_codes(before, c);
    }
    let packed = packed_codes(c) as u64;
    Sent {
        bits: packed % 256,
        width: packed / 256,
        count: 1,
    }
}

// What goes for four characters, of which the first comes after `before`.
fn four_codes(text: &[u8], i: usize, before: u8) -> Sent
    requires { AllCoded text.now × (i + 4 ≤ length text.now) × (before ≡ last_of (take i text.now)) }
    ensures { FirstCodesOf text.now i 32 result }
{
    let first = own_codes(before, text[i]);
    let second = own_codes(text[i], text[i + 1]);
    let third = own_codes(text[i + 1], text[i + 2]);
    let fourth = own_codes(text[i + 2], text[i + 3]);
    bit_sender::four_joined(first, second, third, fourth)
}

// Compact Numeric, as the loops of text_sender ask of it.
pub struct Numeric;

impl Writes for Numeric {
    ghost coded = { coded };

    ghost ours = { ours };

    ghost bits_from = { bits_from };

    ghost units_for = { codes_for };

    ghost UNIT = { 4 };

    ghost FEWEST = { 8 };

    ghost laws = { write-laws };

    // a base character a character or more, since two go for a line end of two
    const FEWEST: usize = 8;

    // a base character has four bits
    const UNIT: usize = 4;

    // The base characters that go for it.
    fn units_for(before: u8, c: u8) -> u16 {
        codes_for(before, c)
    }

    // What goes for the next character from i on, or for the next four.
    fn next_codes(text: &[u8], i: usize) -> Sent {
        let before = bit_sender::before_at(text, i);
        if 4 <= text.len() - i {
            return four_codes(text, i, before);
        }
        own_codes(before, text[i])
    }

    // A space where half a byte is left.
    fn send_end(_text: &[u8], out: &mut [u8], b: Held) -> Held {
        if b.have % 8 == 4 {
            return bit_sender::send(out, b, 10, 4);
        }
        b
    }
}

// How many bytes our data of the text has, or that they are more than the most that may be.
pub fn coded_length(text: &[u8], most: u16) -> Needed
    requires { AllCoded text.now }
    ensures { Needs most coded text.now (written (ours text.now)) result }
{
    text_sender::coded_length::<Numeric>(text, most)
}

// What our writer builds of the text, at the front of the buffer; how many bytes it is. Where half a byte is left at the end a space fills it.
pub fn put_data(text: &[u8], out: &mut [u8]) -> usize
    requires { AllCoded text.now × (length (written (ours text.now)) ≤ length out.old) }
    ensures { Fronted (written (ours text.now)) out.old out.new result }
{
    text_sender::put_data::<Numeric>(text, out)
}

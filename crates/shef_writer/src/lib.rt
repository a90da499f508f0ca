// Compact SHEF Alphanumeric ASCII (001, 4.4), written: whether a character has a code, how long the data of a text is, and the data. What our writer builds is
// in shef.

#![tactic(auto)]

ghost use Rattle.std.specs.Prelude.{◌≡◌, ◌≤◌, T, length};
ghost use Rattle.codes.specs.Coded.{alone};
ghost use Rattle.codes.specs.Pack.{written};
ghost use Rattle.codes.specs.Steps.Laid.{Fronted};
ghost use Rattle.codes.specs.Steps.Size.{Needs};
ghost use Rattle.shef.specs.Writer.{coded, AllCoded, ours};
ghost use Rattle.shef_writer.specs.Steps.Sending.{CodeOf, OwnOf, codes_from, bits_for, entry_of};
ghost use Rattle.shef_writer.specs.Steps.Writing.{write-laws};

use codes::{Held, Needed, Sent};
use text_sender::Writes;

// Whether the character has a code: no branch, so that a loop over a text is done for many characters at once.
pub fn is_coded(c: u8) -> bool
    ensures { result ≡ coded c }
{
    let line_end = (c == b'\r') | (c == b'\n');
    let single = (c == b' ') | ((c == b'#') | (c == b'='));
    line_end | (single | (((b'+' <= c) & (c <= b';')) | ((b'A' <= c) & (c <= b'Z'))))
}

// What a character has: the number that is its code, for CR and LF that of a line end; and 64, but for LF, which may be a part of a line end. The base
// characters but the space have the number of their code in their lowest four bits. No branch here either, and no table: a logger has no room for one.
fn entry(c: u8) -> u16
    requires { T (coded c) }
    ensures { result ≡ entry_of c }
{
    let character = c as u16;
    let base = bit_sender::pick(c == b' ', 74, 64 + character % 16);
    let letter = bit_sender::pick(b'A' <= c, character + 31, base);
    let hash = bit_sender::pick(c == b'#', 123, letter);
    let equals = bit_sender::pick(c == b'=', 124, hash);
    let colon = bit_sender::pick((c == b':') | (c == b';'), character + 67, equals);
    let line_end = bit_sender::pick(c == b'\r', 122, colon);
    bit_sender::pick(c == b'\n', 58, line_end)
}

// The code that a number is, if 64 or nothing is added to it: five bits, or six if the highest is 1.
fn code_of(entry: u16) -> Sent
    ensures { CodeOf entry result }
{
    let number = (entry % 64) as u64;
    Sent {
        bits: number,
        width: 5 + number / 32,
        count: 1,
    }
}

// The code of a character that comes after `before`. LF right behind CR has none.
fn own_code(before: u8, c: u8) -> Sent
    requires { T (coded c) }
    ensures { OwnOf before c result }
{
    if (before == b'\r') & (c == b'\n') {
        return Sent {
            bits: 0,
            width: 0,
            count: 1,
        };
    }
    code_of(entry(c))
}

// Compact SHEF, as the loops of text_sender ask of it.
pub struct Shef;

impl Writes for Shef {
    ghost coded = { alone coded };

    ghost ours = { ours };

    ghost bits_from = { codes_from };

    ghost units_for = { bits_for };

    ghost UNIT = { 1 };

    ghost FEWEST = { 6 };

    ghost laws = { write-laws };

    // a line end has six for two
    const FEWEST: usize = 6;

    const UNIT: usize = 1;

    // Five or six, and nothing for LF right behind CR.
    fn units_for(before: u8, c: u8) -> u16 {
        if (before == b'\r') & (c == b'\n') {
            return 0;
        }
        if (b':' <= c) | ((c == b'#') | ((c == b'\r') | (c == b'\n'))) {
            return 6;
        }
        5
    }

    // One code, or four where no LF is among their characters: one test, for mostly none is.
    fn next_codes(text: &[u8], i: usize) -> Sent {
        if 4 <= text.len() - i {
            let first = entry(text[i]);
            let second = entry(text[i + 1]);
            let third = entry(text[i + 2]);
            let fourth = entry(text[i + 3]);
            if 64 <= first & (second & (third & fourth)) {
                return bit_sender::four_joined(
                    code_of(first),
                    code_of(second),
                    code_of(third),
                    code_of(fourth),
                );
            }
        }
        own_code(bit_sender::before_at(text, i), text[i])
    }

    // Nothing.
    fn send_end(_text: &[u8], _out: &mut [u8], b: Held) -> Held {
        b
    }
}

// How many bytes our data of the text has, or that they are more than the most that may be.
pub fn coded_length(text: &[u8], most: u16) -> Needed
    requires { AllCoded text.now }
    ensures { Needs most (alone coded) text.now (written (ours text.now)) result }
{
    text_sender::coded_length::<Shef>(text, most)
}

// What our writer builds of the text, at the front of the buffer; how many bytes it is.
pub fn put_data(text: &[u8], out: &mut [u8]) -> usize
    requires { AllCoded text.now × (length (written (ours text.now)) ≤ length out.old) }
    ensures { Fronted (written (ours text.now)) out.old out.new result }
{
    text_sender::put_data::<Shef>(text, out)
}

// A text written in a format that has a code for each character: how many bytes its data has, and the data, whatever the codes are. A format says what its
// codes are by its `impl Writes`. The definitions and laws are those of codes.

#![tactic(auto)]

ghost use Rattle.std.specs.Prelude.{◌≡◌, ◌+◌, ◌-◌, ◌*◌, ◌/◌, ◌%◌, ◌^◌, ◌<◌, ◌≤◌, ℕ, Bool, List, length};
ghost use Rattle.codes.specs.Chain.{Entry, codes};
ghost use Rattle.codes.specs.Coded.{CodedBelow};
ghost use Rattle.codes.specs.Pack.{gap, written};
ghost use Rattle.codes.specs.Steps.Laid.{Fronted};
ghost use Rattle.codes.specs.Steps.Sending.{FirstOf, SendsBits};
ghost use Rattle.codes.specs.Steps.Size.{Needs};
ghost use Rattle.codes.specs.Steps.Summed.{sum_after, SumUpTo};
ghost use Rattle.text_sender.specs.Steps.Writes.{HasCode, WriteLaws};

use codes::{Held, Needed, Sent, Unfit};

// A format that has a code for each character (001, 4.3 to 4.5): what our writer builds of a text, and how it tells it character by character.
pub trait Writes {
    // whether a character has a code, told by what stands before it in the text and by itself
    ghost coded: { List ℕ → ℕ → Bool };

    // our codes of a text
    ghost ours: { List ℕ → List Entry };

    // the bits that go for a text from a place on
    ghost bits_from: { List ℕ → ℕ → List ℕ };

    // how many units of bits a character adds that comes after another
    ghost units_for: { ℕ → ℕ → ℕ };

    ghost UNIT: { ℕ };

    ghost FEWEST: { ℕ };

    ghost laws: { WriteLaws coded ours bits_from units_for UNIT FEWEST };

    // How many bits a unit has in which those of a text are counted.
    const UNIT: usize;

    // How many bits two characters have on average, at the least.
    const FEWEST: usize;

    // How many units our data has for a character that comes after `before`: no branch, so that the sum over a text is done for many characters at once.
    fn units_for(before: u8, c: u8) -> u16
        requires { HasCode coded c }
        ensures { (result ≡ units_for before c) × (result ≤ 9) };

    // The first of our codes of the text from i on, at most 32 bits.
    fn next_codes(text: &[u8], i: usize) -> Sent
        requires { CodedBelow coded text.now (length text.now) × (i < length text.now) }
        ensures { FirstOf (bits_from text.now) (length text.now) i 32 result };

    // What goes behind the codes of the text's characters.
    fn send_end(text: &[u8], out: &mut [u8], b: Held) -> Held
        requires few { b.have < 32 }
        requires whole { (b.have + length (bits_from text.now (length text.now)) + gap (length (codes (ours text.now)))) % 8 ≡ 0 }
        requires room { b.n + (b.have + length (bits_from text.now (length text.now))) / 8 ≤ length out.old }
        ensures { SendsBits out.old out.new b (bits_from text.now (length text.now)) result };
}

// So many characters have fewer than 2^16 units, at nine each, and numbers of 16 bits are added twice as many at once as those of 32.
const BLOCK: usize = 7000;

// How many units our data has for the characters from one place up to another.
fn block_units<F: Writes>(text: &[u8], from: usize, to: usize) -> u16
    requires { CodedBelow F.coded text.now (length text.now) × (1 ≤ from) × (from ≤ to) × (to ≤ length text.now) × (to ≤ from + 7000) }
    ensures { (result ≤ 9 * (to - from)) × SumUpTo F.units_for text.now from to result }
{
    let mut n: u16 = 0;
    for i in from..to {
        n += F::units_for(text[i - 1], text[i]);
    }
    n
}

// How many units our data has for the text. No character comes before the first: 0 stands for it.
fn code_units<F: Writes>(text: &[u8]) -> u32
    requires { CodedBelow F.coded text.now (length text.now) × (9 * length text.now < 2 ^ 32) }
    ensures { result ≡ sum_after F.units_for 0 text.now }
{
    if text.len() == 0 {
        return 0;
    }
    let mut n = F::units_for(0, text[0]) as u32;
    let mut i: usize = 1;
    while i < text.len() {
        let to = text.len().min(i + BLOCK);
        n += block_units::<F>(text, i, to) as u32;
        i = to;
    }
    n
}

// How many bytes our data of the text has, or that they are more than the most that may be. A text that is certainly too long is not looked at.
pub fn coded_length<F: Writes>(text: &[u8], most: u16) -> Needed
    requires { CodedBelow F.coded text.now (length text.now) }
    ensures { Needs most F.coded text.now (written (F.ours text.now)) result }
{
    let room = most as usize * 8;
    if room * 2 / F::FEWEST < text.len() {
        return Err(Unfit::TooMany);
    }
    let n = code_units::<F>(text) as usize * F::UNIT;
    if room < n {
        return Err(Unfit::TooMany);
    }
    Ok((n + 7) / 8)
}

// What our writer builds of the text, at the front of the buffer; how many bytes it is.
pub fn put_data<F: Writes>(text: &[u8], out: &mut [u8]) -> usize
    requires { CodedBelow F.coded text.now (length text.now) × (length (written (F.ours text.now)) ≤ length out.old) }
    ensures { Fronted (written (F.ours text.now)) out.old out.new result }
{
    let mut b = Held {
        n: 0,
        held: 0,
        have: 0,
    };
    let mut i: usize = 0;
    while i < text.len() {
        let next = F::next_codes(text, i);
        b = bit_sender::send(out, b, next.bits, next.width);
        i += next.count;
    }
    let last = F::send_end(text, out, b);
    bit_sender::flush(out, last.n, last.held, last.have)
}

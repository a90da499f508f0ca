// Compact Numeric ASCII (001, 4.3), read: how long the text of its data is, and the text. All data has one.

#![tactic(auto)]

ghost use Rattle.std.specs.Prelude.{true, [], ◌∷◌, ◌≡◌, ◌+◌, ◌-◌, ◌*◌, ◌/◌, ◌≤◌, ◌<◌, length, slice_index};
ghost use Rattle.std.specs.Int.Bits.{bit_and};
ghost use Rattle.codes.specs.Steps.Laid.{laid, Fronted};
ghost use Rattle.codes.specs.Steps.Measure.{countable, extent};
ghost use Rattle.numeric.specs.Steps.Text.{spelled, text_of};
ghost use Rattle.numeric_reader.specs.Steps.Reached.{Passes, CountsByte, Counts, Fits, Puts};
ghost use Rattle.numeric_reader.specs.Steps.Signs.{paired, sign, meets, saves, one, entries, Entry, first_of, second_of};

use codes::{Extent, Measured};

mod entries;

// What a byte says, and what is asked of its characters.
fn entry_of(byte: u8) -> u32
    ensures { result ≡ slice_index entries byte }
{
    entries::ENTRIES[byte as usize]
}

// How many characters fewer than two a pair says.
fn fewer(one: u32, other: u32) -> usize
    ensures { result + length (paired one other) ≡ 2 }
{
    if one < 4 {
        return 1;
    }
    if other < 4 {
        return 1;
    }
    0
}

// Two codes passed: how many characters fewer they say, and the sign of the last character, with an 8.
#[derive(Clone, Copy, Debug, PartialEq, Eq)]
struct Passed {
    pub fewer: usize,
    pub before: u32,
}

// The codes of a byte, behind the sign of the character before them, where there is a pair.
fn pass_pair(before: u32, entry: u32) -> Passed
    requires { (before / 8 ≡ 1) × Entry entry × (bit_and before entry ≡ 0 → ⊥) }
    ensures { Passes before entry result }
{
    let first = entry % 8;
    let second = entry / 256 % 8;
    if before & first == 0 {
        return Passed {
            fewer: fewer(first, second),
            before: 8,
        };
    }
    Passed {
        fewer: fewer(before % 8, first),
        before: second + 8,
    }
}

// The length of the text, and how many codes say it: two for each byte, and a character for each, less what pairs save.
fn measure_each(s: &[u8]) -> Measured
    requires { length s.now < countable }
    ensures { result ≡ Ok (extent (length (text_of s.now)) (length (spelled s.now))) }
{
    let mut codes: usize = 0;
    let mut saved: usize = 0;
    let mut before: u32 = 8;
    for byte in s {
        let entry = entry_of(*byte);
        if before & entry == 0 {
            before = entry / 256 % 256;
        } else {
            let p = pass_pair(before, entry);
            saved += p.fewer;
            before = p.before;
        }
        codes += 2;
    }
    Ok(Extent {
        characters: codes - saved,
        codes,
    })
}

// Whether two codes, in one byte, are a pair that says one character.
fn joins(b: u8) -> bool
    ensures { result ≡ saves b }
{
    (b == 0xbd) | ((b == 0xdb) | ((b == 0xdd) | (b == 0xee)))
}

// Whether they are a pair.
fn is_pair(b: u8) -> bool
    ensures { result ≡ meets b }
{
    joins(b) | (b == 0xbb)
}

// How many characters fewer than two a byte's codes say.
fn saved_by(b: u8) -> u8
    ensures { result ≡ one (saves b) }
{
    u8::from(joins(b))
}

// Bytes counted: how many characters fewer than two for each they say; and whether there are no three codes in a row of which the first two would be a
// pair and the last two as well. Of such three it depends on what comes before them which two are one.
#[derive(Clone, Copy, Debug, PartialEq, Eq)]
struct Counted {
    pub saved: u8,
    pub apart: bool,
}

// A byte, by itself and with the one before it: without a branch, so that a loop over bytes is done for many at once.
fn count_byte(before: u8, b: u8) -> Counted
    ensures { (result.saved ≤ 2) × (result.apart ≡ true → CountsByte before b result.saved) }
{
    let across = before % 16 * 16 + b / 16;
    Counted {
        saved: saved_by(across) + saved_by(b),
        apart: !(is_pair(across) & (is_pair(before) | is_pair(b))),
    }
}

// The bytes from one place up to another.
fn count_block(s: &[u8], from: usize, to: usize) -> Counted
    requires { (1 ≤ from) × (from ≤ to) × (to ≤ length s.now) × (to ≤ from + 112) }
    ensures { (result.saved ≤ (to - from) * 2) × (result.apart ≡ true → Counts s.now from to result.saved) }
{
    let mut saved: u8 = 0;
    let mut apart = true;
    for i in from..to {
        let byte = count_byte(s[i - 1], s[i]);
        saved += byte.saved;
        apart &= byte.apart;
    }
    Counted { saved, apart }
}

// Where the next bytes end that are counted together: what 112 save is less than 2^8, and numbers of 8 bits are added 16 at once.
fn block_end(from: usize, length: usize) -> usize
    requires { from < length }
    ensures { (from < result) × (result ≤ length) × (result ≤ from + 112) }
{
    from + (length - from).min(112)
}

// The length of the text, and how many codes say it. All data has a text.
pub fn measure(s: &[u8]) -> Measured
    requires { length s.now < countable }
    ensures { result ≡ Ok (extent (length (text_of s.now)) (length (spelled s.now))) }
{
    if s.len() == 0 {
        return Ok(Extent {
            characters: 0,
            codes: 0,
        });
    }
    let mut codes: usize = 2;
    let mut saved = saved_by(s[0]) as usize;
    let mut i: usize = 1;
    while i < s.len() {
        let to = block_end(i, s.len());
        let block = count_block(s, i, to);
        if !block.apart {
            return measure_each(s);
        }
        codes += (to - i) * 2;
        saved += block.saved as usize;
        i = to;
    }
    let characters = codes - saved;
    Ok(Extent { characters, codes })
}

// How far the text is put: the place after it, and the sign of its last character, with an 8.
#[derive(Clone, Copy, Debug, PartialEq, Eq)]
struct Place {
    pub n: usize,
    pub before: u32,
}

// What a pair says whose first sign is not that of +: one character.
fn one_character(one: u32, other: u32) -> u8
    requires { one < 4 }
    ensures { result ∷ [] ≡ paired one other }
{
    if 2 <= one {
        b':'
    } else if other < 4 {
        b'E'
    } else {
        b'='
    }
}

// What a pair says, from place n on; the place after it.
fn put_pair(out: &mut [u8], n: usize, one: u32, other: u32) -> usize
    requires { n + length (paired one other) ≤ length out.old }
    ensures value { result ≡ n + length (paired one other) }
    ensures out_after { out.new ≡ laid out.old n (paired one other) }
{
    if one < 4 {
        out[n] = one_character(one, other);
        return n + 1;
    }
    if other < 4 {
        out[n] = b'#';
        return n + 1;
    }
    out[n] = b'\r';
    out[n + 1] = b'\n';
    n + 2
}

// A character with its sign, behind the sign of the one before it, which stands at n - 1: what a pair says is put over that.
fn put_character(out: &mut [u8], n: usize, before: u32, own: u32, character: u8) -> Place
    requires { (own ≡ sign character) × Fits (character ∷ []) out.old before n }
    ensures { Puts (character ∷ []) out.old out.new before n result }
{
    if before & own == 0 {
        out[n] = character;
        return Place {
            n: n + 1,
            before: own + 8,
        };
    }
    Place {
        n: put_pair(out, n - 1, before % 8, own),
        before: 8,
    }
}

// The codes of a byte, behind the sign of the character before them.
fn put_byte(out: &mut [u8], n: usize, before: u32, entry: u32) -> Place
    requires { Entry entry × Fits (first_of entry ∷ second_of entry ∷ []) out.old before n }
    ensures { Puts (first_of entry ∷ second_of entry ∷ []) out.old out.new before n result }
{
    let first = (entry / 65536 % 256) as u8;
    let second = (entry / 16777216) as u8;
    if before & entry == 0 {
        out[n] = first;
        out[n + 1] = second;
        return Place {
            n: n + 2,
            before: entry / 256 % 256,
        };
    }
    let middle = put_character(out, n, before, entry % 8, first);
    put_character(out, middle.n, middle.before, entry / 256 % 8, second)
}

// The text of the data, at the front of the buffer; its length.
pub fn put_text(s: &[u8], out: &mut [u8]) -> usize
    requires { (length s.now < countable) × (length (text_of s.now) ≤ length out.old) }
    ensures { Fronted (text_of s.now) out.old out.new result }
{
    let mut place = Place { n: 0, before: 8 };
    for byte in s {
        place = put_byte(out, place.n, place.before, entry_of(*byte));
    }
    place.n
}

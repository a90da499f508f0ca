// Bits taken out of bytes, through a number that holds some of them, and the characters that codes say. The definitions and laws are those of codes.

#![tactic(auto)]

ghost use Rattle.std.specs.Prelude.{◌≡◌, ◌++◌, ℕ, ◌+◌, ◌*◌, ◌^◌, ◌≤◌, ◌<◌, length, get_or};
ghost use Rattle.bits.specs.Says.{Says};
ghost use Rattle.codes.specs.Chain.{Fill};
ghost use Rattle.codes.specs.Pack.{low};
ghost use Rattle.codes.specs.Steps.BitBuffer.{Window};
ghost use Rattle.codes.specs.Steps.EightBytes.{eight_at};
ghost use Rattle.codes.specs.Steps.Laid.{laid};
ghost use Rattle.codes.specs.Steps.Measure.{with_front, FrontFits};
ghost use Rattle.codes.specs.Steps.Taken.{characters_of};
ghost use Rattle.codes.specs.Steps.Words.{Last};

use codes::{Code, Extent, MalformedAt, Measured};

// The bits that are still to be read: the lowest `have` bits of `held`, then those of the bytes from `next` on.
#[derive(Clone, Copy)]
pub struct Buffer {
    pub held: u64,
    pub have: u64,
    pub next: usize,
}

// Eight bytes in a row, from place `at` on, as one number.
pub fn eight(s: &[u8], at: usize) -> u64
    requires { at + 8 ≤ length s.now }
    ensures { (result ≡ eight_at s.now at) × ((i : ℕ) → get_or s.now i 0 < 256) }
{
    u64::from_be_bytes([
        s[at],
        s[at + 1],
        s[at + 2],
        s[at + 3],
        s[at + 4],
        s[at + 5],
        s[at + 6],
        s[at + 7],
    ])
}

// The next nine bits, with ones for those that are not there.
pub fn window(held: u64, have: u64) -> u64
    requires { have ≤ 64 }
    ensures { Window held have result }
{
    if 9 <= have {
        return (held >> (have - 9)) % 512;
    }
    let short = 9 - have;
    (held << short) % 512 + ((1 << short) - 1)
}

// Whether the lowest `have` bits of `held` are a fill, where seven bits may be unused.
pub fn at_end(held: u64, have: u64) -> bool
    requires { have ≤ 64 }
    ensures { Says result (Fill 7 (low have held)) }
{
    if 7 < have {
        return false;
    }
    window(held, have) == 511
}

// `width` bits put in at the lower end.
pub fn push(held: u64, bits: u64, width: u64) -> u64
    requires { (width ≤ 32) × (bits < 2 ^ width) }
    ensures { (n : ℕ) → n + width ≤ 64 → low (n + width) result ≡ low n held ++ low width bits }
{
    (held << width) | bits
}

// The last bits in a buffer: fewer than eight bytes, without the first `skip` bits of them. The place behind them is their end.
pub fn last_bits(rest: &[u8], skip: u64) -> Buffer
    requires { (length rest.now < 8) × (skip ≤ length rest.now * 8) }
    ensures { Last rest.now skip result.held result.have result.next }
{
    let mut held: u64 = 0;
    for byte in rest {
        held = held * 256 + *byte as u64;
    }
    Buffer {
        held,
        have: rest.len() as u64 * 8 - skip,
        next: rest.len(),
    }
}

// What the last bits come to, told of the whole: `at` bits stand before them, which have so many codes and say n characters.
pub fn with_front(last: Measured, n: usize, codes: usize, at: usize) -> Measured
    requires { FrontFits n codes at last }
    ensures { result ≡ with_front n codes at last }
{
    match last {
        Ok(extent) => Ok(Extent {
            characters: n + extent.characters,
            codes: codes + extent.codes,
        }),
        Err(malformed) => Err(MalformedAt {
            bit: at + malformed.bit,
            codes: codes + malformed.codes,
        }),
    }
}

// The one or two characters of a code, from place n on.
pub fn put(out: &mut [u8], n: usize, c: Code)
    requires { (1 ≤ c.count) × (c.count ≤ 2) × (n + c.count ≤ length out.old) }
    ensures { out.new ≡ laid out.old n (characters_of c) }
{
    out[n] = c.first;
    if c.count == 2 {
        out[n + 1] = c.second;
    }
}

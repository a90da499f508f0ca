// Bits put into bytes, through a number that holds some of them; codes joined to one number; and what the loops over a text that is written ask of it. The
// definitions and laws are those of codes.

#![tactic(auto)]

ghost use Rattle.std.specs.Prelude.{cond, ◌≡◌, ◌+◌, ◌/◌, ◌^◌, ◌≤◌, ◌<◌, length, take};
ghost use Rattle.codes.specs.Coded.{last_of};
ghost use Rattle.codes.specs.Pack.{low};
ghost use Rattle.codes.specs.Steps.EightBytes.{spilled};
ghost use Rattle.codes.specs.Steps.Laid.{Flushed};
ghost use Rattle.codes.specs.Steps.Sending.{Joinable, Joined, FourJoined, Sends};

use codes::{Held, Sent};

// The upper four bytes of the lowest `have` bits of `held`, from place n on.
pub fn spill(out: &mut [u8], n: usize, held: u64, have: u64)
    requires { (32 ≤ have) × (have ≤ 64) × (n + 4 ≤ length out.old) }
    ensures { out.new ≡ spilled 4 out.old n held have }
{
    let four = (held >> (have - 32)) % 0x1_0000_0000;
    let [first, second, third, fourth] = (four as u32).to_be_bytes();
    out[n] = first;
    out[n + 1] = second;
    out[n + 2] = third;
    out[n + 3] = fourth;
}

// `width` bits more, and if four bytes or more are held then, the upper four of them into the buffer.
pub fn send(out: &mut [u8], b: Held, bits: u64, width: u64) -> Held
    requires { (b.have < 32) × (width ≤ 32) × (bits < 2 ^ width) × (b.n + (b.have + width) / 8 ≤ length out.old) }
    ensures { Sends out.old out.new b width bits result }
{
    let n = b.n;
    let held = bit_buffer::push(b.held, bits, width);
    let have = b.have + width;
    if have < 32 {
        return Held { n, held, have };
    }
    spill(out, n, held, have);
    Held {
        n: n + 4,
        held,
        have: have - 32,
    }
}

// Codes and those that come next, as one number.
fn joined(first: Sent, next: Sent) -> Sent
    requires { Joinable 16 first × Joinable 16 next }
    ensures { Joined first next result }
{
    Sent {
        bits: (first.bits << next.width) | next.bits,
        width: first.width + next.width,
        count: first.count + next.count,
    }
}

// The codes of four characters in a row, as one number.
pub fn four_joined(first: Sent, second: Sent, third: Sent, fourth: Sent) -> Sent
    requires { Joinable 8 first × Joinable 8 second × Joinable 8 third × Joinable 8 fourth }
    ensures { FourJoined first second third fourth result }
{
    let left = joined(first, second);
    let right = joined(third, fourth);
    joined(left, right)
}

// The lowest `have` bits of `held`, then ones up to the byte's end, from place `at` on; the place after them. That fewer than 32 are left is said in the loop,
// where LLVM sees it and makes no loop for many bytes of it.
pub fn flush(out: &mut [u8], at: usize, held: u64, have: u64) -> usize
    requires { (have < 32) × (at + (have + 7) / 8 ≤ length out.old) }
    ensures { Flushed (low have held) out.old out.new at result }
{
    let mut left = have;
    let mut n = at;
    while 8 <= left % 32 {
        left -= 8;
        out[n] = ((held >> left) % 256) as u8;
        n += 1;
    }
    if left == 0 {
        return n;
    }
    out[n] = (bit_buffer::window(held, left) / 2) as u8;
    n + 1
}

// The character before the one at i. None stands before the first: 0 stands for it.
pub fn before_at(text: &[u8], i: usize) -> u8
    requires { i ≤ length text.now }
    ensures { result ≡ last_of (take i text.now) }
{
    if i == 0 {
        return 0;
    }
    text[i - 1]
}

// One of two numbers that are both at hand: a choice without a branch, which is made for several characters at once.
pub fn pick(yes: bool, one: u16, other: u16) -> u16
    ensures { result ≡ cond yes one other }
{
    if yes { one } else { other }
}

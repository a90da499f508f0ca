// Compact Pseudo Binary read: the data measured, and its text put into a buffer.

#![tactic(auto)]

ghost use Rattle.std.specs.Prelude.{◌≡◌, List, ℕ, ◌+◌, ◌*◌, ◌/◌, ◌≤◌, ◌<◌, ◌^◌, length, take, drop, replicate};
ghost use Rattle.bits.specs.Row.{bits};
ghost use Rattle.codes.specs.Steps.BitBuffer.{ahead};
ghost use Rattle.codes.specs.Steps.Laid.{laid, Readable, Placed};
ghost use Rattle.codes.specs.Steps.Measure.{countable, Measures};
ghost use Rattle.codes.specs.Pack.{value};
ghost use Rattle.codes.specs.Steps.Passed.{CountedSoFar, LaidSoFar};
ghost use Rattle.pseudo_binary.specs.Table.{scheme};
ghost use Rattle.pseudo_binary_reader.specs.Steps.Taken.{Eight, Nine, Spread, Starts, FirstIndicator, Top, characters_in, width_of, values_of, count_of, saying};

use bit_buffer::Buffer;
use codes::{Extent, MalformedAt, Measured};

// An indicator: it announces so many values, or says a character so often.
#[derive(Clone, Copy)]
enum Indicator {
    Values(usize),
    Repeat(usize, u8),
}

impl Indicator {
    // The most values that one announces.
    pub const MOST_VALUES: u64 = 128;
    // The most spaces or slashes that one says.
    pub const MOST_REPEATED: u64 = 16;
    // How many bits one has that announces values.
    pub const VALUES_WIDTH: usize = 8;
    // And one that says spaces or slashes.
    pub const REPEAT_WIDTH: usize = 6;

    // How many bits it has.
    fn width(self) -> usize
        ensures { result ≡ width_of self }
    {
        match self {
            Indicator::Values(_) => Indicator::VALUES_WIDTH,
            Indicator::Repeat(_, _) => Indicator::REPEAT_WIDTH,
        }
    }

    // How many values it announces.
    fn values(self) -> usize
        ensures { result ≡ values_of self }
    {
        match self {
            Indicator::Values(count) => count,
            Indicator::Repeat(_, _) => 0,
        }
    }

    // How many characters it says, with those of its values.
    fn characters(self) -> usize
        ensures { result ≡ count_of self }
    {
        match self {
            Indicator::Values(count) => count,
            Indicator::Repeat(count, _) => count,
        }
    }
}

// The indicator that begins nine bits: any nine bits begin one.
fn first_indicator(w: u64) -> Indicator
    requires { w < 512 }
    ensures { FirstIndicator w result }
{
    if 256 <= w {
        return Indicator::Values((w / 2 % Indicator::MOST_VALUES + 1) as usize);
    }
    let count = (w / 8 % Indicator::MOST_REPEATED + 1) as usize;
    if w < 128 {
        return Indicator::Repeat(count, b' ');
    }
    Indicator::Repeat(count, b'/')
}

// Two bytes in a row as one number.
fn pair(s: &[u8], at: usize) -> u64
    requires { at + 1 < length s.now }
    ensures { (ahead s.now result 16 (at + 2) ≡ bits (drop at s.now)) × (result < 65536) }
{
    u16::from_be_bytes([s[at], s[at + 1]]) as u64
}

// A buffer that starts at a bit of the data, wherever in a byte that is: what is left of the byte, and the next one if there is one.
fn buffer_at(s: &[u8], at: usize) -> Buffer
    requires { at ≤ length s.now * 8 }
    ensures { Starts s.now at result }
{
    let first = at / 8;
    let before = (at % 8) as u64;
    if first == s.len() {
        return Buffer {
            held: 0,
            have: 0,
            next: first,
        };
    }
    if first + 1 == s.len() {
        return Buffer {
            held: s[first] as u64,
            have: 8 - before,
            next: first + 1,
        };
    }
    Buffer {
        held: pair(s, first),
        have: 16 - before,
        next: first + 2,
    }
}

// The next nine bits, where a byte follows the one that bit `at` is in.
fn nine_at(s: &[u8], at: usize) -> u64
    requires { at / 8 + 1 < length s.now }
    ensures { Nine (drop at (bits s.now)) result }
{
    (pair(s, at / 8) >> (7 - at % 8) as u64) % 512
}

// The next bits at the top of a number, 57 or more, where eight bytes can be taken from the one on that bit `at` is in.
fn top_at(s: &[u8], at: usize) -> u64
    requires { at / 8 + 8 ≤ length s.now }
    ensures { Top (drop at (bits s.now)) result }
{
    bit_buffer::eight(s, at / 8) << (at % 8) as u64
}

// How far data was read: the bit, and how many characters it said.
#[derive(Clone, Copy)]
struct Place {
    pub at: usize,
    pub n: usize,
}

// The same, and how many indicators and values were read.
#[derive(Clone, Copy)]
struct Counted {
    pub at: usize,
    pub codes: usize,
    pub n: usize,
}

// The indicators that start in the eighth byte from the end of the data or before it, up to one whose values are not all there.
fn measure_most(s: &[u8]) -> Counted
    requires { length s.now < countable }
    ensures at_in_bounds { (result.at ≤ length s.now * 8) × (result.n ≤ 3 * result.at) × (result.codes ≤ result.at) }
    ensures counted_so_far { CountedSoFar scheme (bits s.now) (drop result.at (bits s.now)) result.n result.codes }
{
    if s.len() < 8 {
        return Counted {
            at: 0,
            codes: 0,
            n: 0,
        };
    }
    let end = s.len() * 8;
    let limit = end - 56;
    let mut at: usize = 0;
    let mut codes: usize = 0;
    let mut n: usize = 0;
    while at < limit {
        match first_indicator(top_at(s, at) >> 55) {
            Indicator::Repeat(count, _) => {
                at += Indicator::REPEAT_WIDTH;
                codes += 1;
                n += count;
            }
            Indicator::Values(count) => {
                let next = at + (Indicator::VALUES_WIDTH + count * 6);
                if end < next {
                    return Counted { at, codes, n };
                }
                at = next;
                codes += 1 + count;
                n += count;
            }
        }
    }
    Counted { at, codes, n }
}

// The length of the text, or the bit at which the data is malformed. Announced values are not looked at but counted: any six bits are a value.
pub fn measure(s: &[u8]) -> Measured
    requires { length s.now < countable }
    ensures { Measures scheme (bits s.now) result }
{
    let end = s.len() * 8;
    let most = measure_most(s);
    let mut at = most.at;
    let mut codes = most.codes;
    let mut n = most.n;
    loop {
        let b = buffer_at(s, at);
        if bit_buffer::at_end(b.held, b.have) {
            return Ok(Extent {
                characters: n,
                codes,
            });
        }
        let indicator = first_indicator(bit_buffer::window(b.held, b.have));
        let width = indicator.width();
        let values = indicator.values();
        if end - at < width {
            return Err(MalformedAt { bit: at, codes });
        }
        let left = end - at - width;
        if left < values * 6 {
            return Err(MalformedAt {
                bit: end - left % 6,
                codes: codes + (1 + left / 6),
            });
        }
        at += width + values * 6;
        codes += 1 + values;
        n += indicator.characters();
    }
}

// Eight values, each as its character in a byte of its own: the bits are parted in the middle, then each half, then each quarter. The character is 64
// plus the value, but for 63, of which one more has the bit of 64: it stays 63.
fn spread(values: u64) -> u64
    requires { values < 2 ^ 48 }
    ensures { Spread values result }
{
    let halves = values / 0x100_0000 * 0x1_0000_0000 + values % 0x100_0000;
    let quarters = halves + (halves & 0x00ff_f000_00ff_f000) * 15;
    let eighths = quarters + (quarters & 0x0fc0_0fc0_0fc0_0fc0) * 3;
    let more = eighths + 0x0101_0101_0101_0101;
    eighths + (0x4040_4040_4040_4040 - (more & 0x4040_4040_4040_4040))
}

// The eight values that end so many bits before the end of the eight bytes from `first` on, each as its character in a byte of its own.
fn eight_characters(s: &[u8], first: usize, behind: u64) -> u64
    requires { (first + 8 ≤ length s.now) × (behind ≤ 16) }
    ensures { (at : ℕ) → at + behind ≡ first * 8 + 16 → Eight (drop at (bits s.now)) result }
{
    spread((bit_buffer::eight(s, first) >> behind) % 0x1_0000_0000_0000)
}

// Eight characters out of the bytes of a number, from place n on.
fn put_eight(out: &mut [u8], n: usize, word: u64)
    requires { n + 8 ≤ length out.old }
    ensures { (bs : List ℕ) → Eight bs word → out.new ≡ laid out.old n (characters_in 8 bs) }
{
    bit_sender::spill(out, n, word, 64);
    bit_sender::spill(out, n + 4, word, 32);
}

// Fewer than eight of them.
fn put_few(out: &mut [u8], n: usize, count: usize, word: u64)
    requires { (count < 8) × (n + count ≤ length out.old) }
    ensures { (bs : List ℕ) → Eight bs word → out.new ≡ laid out.old n (characters_in count bs) }
{
    let mut left = word;
    for done in 0..count {
        out[n + done] = (left >> 56) as u8;
        left = left << 8;
    }
}

// The value at bit `at`, out of one byte or two.
fn value_at(s: &[u8], at: usize) -> u8
    requires { at + 6 ≤ length s.now * 8 }
    ensures { (result ≡ value (take 6 (drop at (bits s.now)))) × (result < 64) }
{
    let before = (at % 8) as u64;
    if before <= 2 {
        return ((s[at / 8] as u64 >> (2 - before)) % 64) as u8;
    }
    ((pair(s, at / 8) >> (10 - before)) % 64) as u8
}

// Values one at a time.
fn read_last(s: &[u8], at: usize, count: usize, out: &mut [u8], n: usize)
    requires { (length s.now < countable) × (at + 6 * count ≤ length s.now * 8) × (n + count ≤ length out.old) }
    ensures { out.new ≡ laid out.old n (characters_in count (drop at (bits s.now))) }
{
    for done in 0..count {
        out[n + done] = 63 + (value_at(s, at + 6 * done) + 1) % 64;
    }
}

// More than eight values, the first eight of which are in `word`: eight at a time, and the last eight where they end, some of them a second time.
fn read_many(s: &[u8], at: usize, count: usize, word: u64, out: &mut [u8], n: usize)
    requires s_len_bound { (length s.now < countable) × (8 ≤ at) × (at + 6 * count ≤ length s.now * 8) × Eight (drop at (bits s.now)) word }
    requires lt_count { (8 < count) × (n + count ≤ length out.old) }
    ensures { out.new ≡ laid out.old n (characters_in count (drop at (bits s.now))) }
{
    put_eight(out, n, word);
    let last = n + (count - 8);
    let mut place = n + 8;
    let mut first = (at + 39) / 8;
    // By subtraction and not by a remainder: of a shift whose bounds it knows LLVM leaves out bytes, and then loads them one by one.
    let behind = (first * 8 - (at + 32)) as u64;
    while place < last {
        let next = eight_characters(s, first, behind);
        put_eight(out, place, next);
        place += 8;
        first += 6;
    }
    let end = at + 6 * count;
    let stop = (end + 7) / 8;
    let ending = eight_characters(s, stop - 8, (stop * 8 - end) as u64);
    put_eight(out, last, ending);
}

// The values that an indicator at bit `at` announces, each as its character, from place n on. The bits from there on are at the top of `top`.
fn read_values(s: &[u8], at: usize, count: usize, top: u64, out: &mut [u8], n: usize)
    requires s_len_bound { (length s.now < countable) × (at + (8 + count * 6) ≤ length s.now * 8) × Top (drop at (bits s.now)) top }
    requires count_in_bounds { n + count ≤ length out.old }
    ensures { out.new ≡ laid out.old n (characters_in count (drop (at + 8) (bits s.now))) }
{
    let word = spread(top / 256 % 0x1_0000_0000_0000);
    if count < 8 {
        put_few(out, n, count, word);
        return;
    }
    if count == 8 {
        put_eight(out, n, word);
        return;
    }
    read_many(s, at + 8, count, word, out, n);
}

// The character, fewer than four times, from place n on.
fn repeat_few(out: &mut [u8], n: usize, count: usize, character: u8)
    requires { (count < 4) × (n + count ≤ length out.old) }
    ensures { out.new ≡ laid out.old n (replicate count character) }
{
    if count == 0 {
        return;
    }
    out[n] = character;
    if count == 1 {
        return;
    }
    out[n + 1] = character;
    if count == 2 {
        return;
    }
    out[n + 2] = character;
}

// The character, so many times, from place n on. Few are common, and need no loop.
fn repeat(out: &mut [u8], n: usize, count: usize, character: u8)
    requires { n + count ≤ length out.old }
    ensures { out.new ≡ laid out.old n (replicate count character) }
{
    if count < 4 {
        repeat_few(out, n, count, character);
        return;
    }
    out[n..n + count].fill(character);
}

// What an indicator says, and the values that it announces, which start at bit `at`, from place n on.
fn read_run(s: &[u8], at: usize, run: Indicator, out: &mut [u8], n: usize)
    requires s_len_bound { (length s.now < countable) × (at + 6 * values_of run ≤ length s.now * 8) }
    requires count_in_bounds { n + count_of run ≤ length out.old }
    ensures { out.new ≡ laid out.old n (saying run (drop at (bits s.now))) }
{
    match run {
        Indicator::Values(count) => read_last(s, at, count, out, n),
        Indicator::Repeat(count, character) => repeat(out, n, count, character),
    }
}

// The indicators that start in the eighth byte from the end of the data or before it, and what they and their values say at the front of the
// buffer.
fn read_front(s: &[u8], out: &mut [u8]) -> Place
    requires { (length s.now < countable) × Readable scheme (bits s.now) (length out.old) }
    ensures at_in_bounds { (result.at ≤ length s.now * 8) × (result.n ≤ length out.old) }
    ensures laid_so_far { LaidSoFar scheme (bits s.now) (drop result.at (bits s.now)) out.old out.new 0 result.n }
{
    if s.len() < 8 {
        return Place { at: 0, n: 0 };
    }
    let limit = s.len() * 8 - 56;
    let mut at: usize = 0;
    let mut n: usize = 0;
    while at < limit {
        let top = top_at(s, at);
        match first_indicator(top >> 55) {
            Indicator::Repeat(count, character) => {
                repeat(out, n, count, character);
                at += Indicator::REPEAT_WIDTH;
                n += count;
            }
            Indicator::Values(count) => {
                read_values(s, at, count, top, out, n);
                at += Indicator::VALUES_WIDTH + count * 6;
                n += count;
            }
        }
    }
    Place { at, n }
}

// The indicators that have nine bits or more before the end of the data, and what they and their values say at the front of the buffer.
fn read_most(s: &[u8], out: &mut [u8]) -> Place
    requires { (length s.now < countable) × Readable scheme (bits s.now) (length out.old) }
    ensures at_in_bounds { (result.at ≤ length s.now * 8) × (length s.now * 8 ≤ result.at + 8) × (result.n ≤ length out.old) }
    ensures laid_so_far { LaidSoFar scheme (bits s.now) (drop result.at (bits s.now)) out.old out.new 0 result.n }
{
    let front = read_front(s, out);
    let mut at = front.at;
    let mut n = front.n;
    while at / 8 + 1 < s.len() {
        let run = first_indicator(nine_at(s, at));
        let width = run.width();
        read_run(s, at + width, run, out, n);
        n += run.characters();
        at += width + run.values() * 6;
    }
    Place { at, n }
}

// The text of the data, at the front of the buffer; its length. In the last eight bits there are no values.
pub fn put_text(s: &[u8], out: &mut [u8]) -> usize
    requires { (length s.now < countable) × Readable scheme (bits s.now) (length out.old) }
    ensures { Placed scheme (bits s.now) out.old out.new 0 result }
{
    let most = read_most(s, out);
    let mut at = most.at;
    let mut n = most.n;
    loop {
        let b = buffer_at(s, at);
        if bit_buffer::at_end(b.held, b.have) {
            return n;
        }
        let Indicator::Repeat(count, character) = first_indicator(bit_buffer::window(
            b.held, b.have,
        )) else {
            unreachable!()
        };
        repeat(out, n, count, character);
        n += count;
        at += Indicator::REPEAT_WIDTH;
    }
}

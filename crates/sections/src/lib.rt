// The data of a message in sections, each with its checksum behind it (document 001, 3.3): judged and joined where they were received, made where they are
// sent.

#![tactic(auto)]

ghost use Rattle.std.specs.Prelude.{◌++◌, ◌≡◌, ◌+◌, ◌-◌, ◌*◌, ◌%◌, ◌^◌, ◌≤◌, ◌<◌, length, take, drop};
ghost use Rattle.checksum.specs.Checksum.{checksum_bytes};
ghost use Rattle.sections.specs.Sections.{section_count, sent_length, size_of, in_sections, joined};
ghost use Rattle.sections.specs.Steps.Moved.{moved_up};
ghost use Rattle.sections.specs.Steps.Sums.{Judges};

// How many bytes sections have.
#[derive(Clone, Copy, Debug, PartialEq, Eq)]
pub struct Section;

impl Section {
    // The most data bytes of one.
    pub const MOST: usize = 4000;

    // The same with the checksum behind them.
    pub const STEP: usize = 4002;

    // The most data bytes of all sections of a packet.
    pub const ALL: usize = 16000;
}

// How many sections n data bytes have.
pub fn count(n: usize) -> usize
    requires { n < 2 ^ 14 }
    ensures { result ≡ section_count n }
{
    n.div_ceil(Section::MOST)
}

// How many data bytes section k has.
fn size(n: usize, k: usize) -> usize
    requires { (n < 2 ^ 14) × (k < section_count n) }
    ensures { result ≡ size_of n k }
{
    (n - k * Section::MOST).min(Section::MOST)
}

// The first section whose checksum is wrong; none where that of each is right.
pub fn judge(n: usize, came: &[u8]) -> Option<usize>
    requires { (n < 2 ^ 14) × (sent_length n ≤ length came.now) }
    ensures { Judges n came.now result }
{
    for k in 0..count(n) {
        let start = k * Section::STEP;
        let end = start + size(n, k);
        if !checksum::agrees(&came[start..end], came[end], came[end + 1]) {
            return Some(k);
        }
    }
    None
}

// The sections in one piece, without their checksums, at the front of the buffer.
pub fn join(n: usize, came: &[u8], out: &mut [u8])
    requires { (n < 2 ^ 14) × (sent_length n ≤ length came.now) × (n ≤ length out.old) }
    ensures { out.new ≡ joined n came.now ++ drop n out.old }
{
    for k in 0..count(n) {
        let start = k * Section::STEP;
        let end = start + size(n, k);
        let place = k * Section::MOST;
        rows::copy(&came[start..end], &mut out[place..]);
    }
}

// Eight bytes moved from one place to another, which it may overlap: all are read before one is put.
fn move_eight(from: usize, to: usize, body: &mut [u8])
    requires { (from + 8 ≤ length body.old) × (to + 8 ≤ length body.old) }
    ensures { body.new ≡ take to body.old ++ (take 8 (drop from body.old) ++ drop (to + 8) body.old) }
{
    let first = body[from];
    let second = body[from + 1];
    let third = body[from + 2];
    let fourth = body[from + 3];
    let fifth = body[from + 4];
    let sixth = body[from + 5];
    let seventh = body[from + 6];
    let eighth = body[from + 7];
    body[to] = first;
    body[to + 1] = second;
    body[to + 2] = third;
    body[to + 3] = fourth;
    body[to + 4] = fifth;
    body[to + 5] = sixth;
    body[to + 6] = seventh;
    body[to + 7] = eighth;
}

// Bytes moved up from one place to another, the last eight first, until fewer than eight are left.
fn move_by_eight(from: usize, to: usize, count: usize, body: &mut [u8])
    requires { (from ≤ to) × (to + count ≤ length body.old) }
    ensures { body.new ≡ moved_up body.old from to count (count % 8) }
{
    let mut left = count;
    while 8 <= left {
        left -= 8;
        move_eight(from + left, to + left, body);
    }
}

// The same, the last byte first, until none is left.
fn move_by_one(from: usize, to: usize, count: usize, body: &mut [u8])
    requires { (from ≤ to) × (to + count ≤ length body.old) }
    ensures { body.new ≡ moved_up body.old from to count 0 }
{
    let mut left = count;
    while 0 < left {
        left -= 1;
        body[to + left] = body[from + left];
    }
}

// Bytes moved up from one place to another, which it may overlap.
fn move_up(from: usize, to: usize, count: usize, body: &mut [u8])
    requires { (from ≤ to) × (to + count ≤ length body.old) }
    ensures { body.new ≡ take to body.old ++ (take count (drop from body.old) ++ drop (to + count) body.old) }
{
    move_by_eight(from, to, count, body);
    move_by_one(from, to, count % 8, body);
}

// The checksum of the bytes from one place to another, behind them.
fn put_sum(start: usize, end: usize, body: &mut [u8])
    requires { (start ≤ end) × (end + 2 ≤ length body.old) }
    ensures { body.new ≡ take end body.old ++ (checksum_bytes (take (end - start) (drop start body.old)) ++ drop (end + 2) body.old) }
{
    let sum = checksum::checksum(&body[start..end]);
    body[end] = checksum::low_byte(sum);
    body[end + 1] = checksum::high_byte(sum);
}

// Section k out of data that lies in one piece, moved to where it is sent. The first stands there.
fn move_section(n: usize, k: usize, body: &mut [u8])
    requires { (n < 2 ^ 14) × (k < section_count n) × (sent_length n ≤ length body.old) }
    ensures { body.new ≡ take (k * 4002) body.old ++ (take (size_of n k) (drop (k * 4000) body.old) ++ drop (k * 4002 + size_of n k) body.old) }
{
    if 0 < k {
        move_up(k * Section::MOST, k * Section::STEP, size(n, k), body);
    }
}

// The data in sections, where it lay in one piece at the front of the buffer: the last section first, so that none is moved onto another.
pub fn divide(n: usize, body: &mut [u8])
    requires { (n < 2 ^ 14) × (sent_length n ≤ length body.old) }
    ensures { body.new ≡ in_sections (take n body.old) ++ drop (sent_length n) body.old }
{
    for k in (0..count(n)).rev() {
        move_section(n, k, body);
        let start = k * Section::STEP;
        let end = start + size(n, k);
        put_sum(start, end, body);
    }
}

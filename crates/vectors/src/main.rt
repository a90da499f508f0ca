// Runs packets through the reader and texts through the writer. Standard input is a row of cases: `r`, `d` or `w`; the writer's sync bit, to which 1200 bps
// adds two; the number that is named, the length of the lent buffer and that of the packet or text (three bytes each, high byte first); and the packet or text.
// In a case `r` the number is that of the header bits to mend, in a case `w` that of the writer's format, and in a case `d` the reader is called without one.
// For each packet it prints what is found out without a buffer: `readable` and the eight numbers of the answer, or `refused` with the refusal's number, the
// one that comes with it and the codes. In a case `r` it then prints what is judged of it: `ours` and how many bytes more than ours the data has, or
// `departs`, the bit and how many, or the refusal as before. Then for each packet or text the answer's line; for a packet `codes` and how many were read; and
// the number that comes with a refusal, or the bytes used, then the lent buffer's Adler-32, and its first 512 bytes.

#![tactic(auto)]

ghost use Rattle.std.specs.Prelude.{◌≤◌, IfSome};

use apart::Judgement;
use examine::{ExamineAnswer, Reading};
use header::Header;
use judge::JudgeAnswer;
use reader::ReadAnswer;
use refusals::ExamineRefusal;
use report::Report;
use std::io::{Read, Write};
use std::{fmt, io};
use writer::WriteAnswer;

// The longest text of a packet has 341,328 characters.
const LARGEST: usize = 341504;

// What is run in a case: the reader with its judging, the reader without a number, or the writer.
#[derive(Clone, Copy, Debug, PartialEq, Eq)]
enum Kind {
    Reader,
    UsualReader,
    Writer,
}

impl From<u8> for Kind {
    fn from(letter: u8) -> Self {
        match letter {
            b'r' => Kind::Reader,
            b'd' => Kind::UsualReader,
            _ => Kind::Writer,
        }
    }
}

// A case without its packet or text.
#[derive(Clone, Copy, Debug, PartialEq, Eq)]
struct Case {
    kind: Kind,
    rate_1200: bool,
    sync: bool,
    // the header bits to mend, or the number of the format
    named: u32,
    // the length of the lent buffer
    room: usize,
    // the length of the packet or text
    length: usize,
}

// The lent buffer before each case: no two neighbours alike.
fn fill(buffer: &mut [u8]) {
    for (i, byte) in buffer.iter_mut().enumerate() {
        *byte = (i % 251 + 5) as u8;
    }
}

fn adler32(bytes: &[u8]) -> u32 {
    let mut low: u32 = 1;
    let mut high: u32 = 0;
    for byte in bytes {
        low = (low + u32::from(*byte)) % 65521;
        high = (high + low) % 65521;
    }
    high * 65536 + low
}

// The first 512 bytes, in hexadecimal.
#[derive(Clone, Copy)]
struct Front<'a>(&'a [u8]);

impl fmt::Display for Front<'_> {
    fn fmt<W: fmt::Write>(&self, f: &mut fmt::Formatter<W>) -> fmt::Result {
        for byte in self.0.iter().take(512) {
            write!(f, "{byte:02x}")?;
        }
        Ok(())
    }
}

fn print_buffer<W: Write>(out: &mut W, with: usize, buffer: &[u8]) -> io::Result<()> {
    let sum = adler32(buffer);
    let front = Front(buffer);
    writeln!(out, "{with} {sum:08x} {front}")
}

fn print_refused<W: Write>(out: &mut W, refusal: ExamineRefusal) -> io::Result<()> {
    let number = refusal.number();
    let value = refusal.value();
    let codes = refusal.codes();
    out.write_all(b"refused")?;
    writeln!(out, " {number} {value} {codes}")
}

fn print_examined<W: Write>(out: &mut W, answer: ExamineAnswer) -> io::Result<()> {
    match answer {
        Ok(reading) => {
            let Reading {
                format,
                sync,
                mended,
                mask,
                codes,
                data_length,
                text_length,
                used,
            } = reading;
            let format = Header::number(format);
            let sync = u32::from(sync);
            out.write_all(b"readable")?;
            writeln!(
                out,
                " {format} {sync} {mended} {mask} {codes} {data_length} {text_length} {used}"
            )
        }
        Err(refusal) => print_refused(out, refusal),
    }
}

fn print_judgement<W: Write>(out: &mut W, judgement: Judgement) -> io::Result<()> {
    let more = judgement.more;
    match judgement.departs_at {
        None => {
            out.write_all(b"ours")?;
            writeln!(out, " {more}")
        }
        Some(bit) => {
            out.write_all(b"departs")?;
            writeln!(out, " {bit} {more}")
        }
    }
}

fn print_judged<W: Write>(out: &mut W, answer: JudgeAnswer) -> io::Result<()> {
    match answer {
        Ok(judgement) => print_judgement(out, judgement),
        Err(refusal) => print_refused(out, refusal),
    }
}

// The codes that were read; and the bytes used, or the number that comes with the refusal.
fn counts(answer: ReadAnswer) -> (usize, usize) {
    match answer {
        Ok(reading) => (reading.codes, reading.used),
        Err(refusal) => (refusal.codes(), refusal.value()),
    }
}

fn print_read<W: Write>(out: &mut W, answer: ReadAnswer, text: &[u8]) -> io::Result<()> {
    let (codes, with) = counts(answer);
    standard_input::print_told(out, &Report(answer))?;
    out.write_all(b"codes")?;
    writeln!(out, " {codes}")?;
    print_buffer(out, with, text)
}

fn run_reader<W: Write>(out: &mut W, case: Case, packet: &[u8], text: &mut [u8]) -> io::Result<()> {
    let Case {
        named,
        rate_1200,
        ..
    } = case;
    print_examined(out, examine::examine_mending(named, rate_1200, packet))?;
    print_judged(out, judge::judge(named, rate_1200, packet))?;
    let answer = reader::read_mending(named, rate_1200, packet, text);
    print_read(out, answer, text)
}

fn run_usual_reader<W: Write>(
    out: &mut W,
    case: Case,
    packet: &[u8],
    text: &mut [u8],
) -> io::Result<()> {
    print_examined(out, examine::examine(case.rate_1200, packet))?;
    let answer = reader::read(case.rate_1200, packet, text);
    print_read(out, answer, text)
}

fn run_writer<W: Write>(out: &mut W, case: Case, text: &[u8], packet: &mut [u8]) -> io::Result<()> {
    let answer = writer::write(case.rate_1200, case.named, case.sync, text, packet);
    match answer {
        Ok(length) => {
            out.write_all(b"written")?;
            writeln!(out, " {length}")?;
            print_buffer(out, length, packet)
        }
        Err(refusal) => {
            let number = refusal.number();
            out.write_all(b"refused")?;
            writeln!(out, " {number}")?;
            print_buffer(out, refusal.value(), packet)
        }
    }
}

fn run_case<W: Write>(out: &mut W, case: Case, given: &[u8], lent: &mut [u8]) -> io::Result<()> {
    match case.kind {
        Kind::Reader => run_reader(out, case, given, lent),
        Kind::UsualReader => run_usual_reader(out, case, given, lent),
        Kind::Writer => run_writer(out, case, given, lent),
    }
}

// The packet or text of a case, and the calls.
fn run_next<R: Read, W: Write>(
    reader: &mut R,
    out: &mut W,
    case: Case,
    given: &mut [u8],
    lent: &mut [u8],
) -> io::Result<()> {
    given.fill(0); // what does not come is 0
    let _ = standard_input::read_input(reader, given);
    fill(lent);
    run_case(out, case, given, lent)
}

// Three bytes as a number, high byte first.
fn number(bytes: [u8; 3]) -> u32 {
    let [high, middle, low] = bytes;
    u32::from_be_bytes([0, high, middle, low])
}

// The next case; none at the end, where it is cut, and where more is asked for than a packet or text can have.
fn next_case<R: Read>(reader: &mut R) -> Option<Case>
    ensures { IfSome result (λ case. (case.room ≤ 341504) × (case.length ≤ 341504)) }
{
    let mut head = [0u8; 11];
    let Ok(11) = standard_input::read_input(reader, &mut head) else {
        return None;
    };
    let [letter, bits, n, o, p, r, s, t, u, v, w] = head;
    let room = number([r, s, t]) as usize;
    let length = number([u, v, w]) as usize;
    if room > LARGEST || length > LARGEST {
        return None;
    }
    Some(Case {
        kind: Kind::from(letter),
        rate_1200: bits / 2 == 1,
        sync: bits % 2 == 1,
        named: number([n, o, p]),
        room,
        length,
    })
}

fn main(rt: HostRuntime) -> io::Result<()> {
    let mut reader = rt.stdin();
    let mut out = rt.stdout();
    let mut given = [0u8; LARGEST];
    let mut lent = [0u8; LARGEST];
    for _ in 0..u32::MAX {
        let Some(case) = next_case(&mut reader) else {
            break;
        };
        run_next(
            &mut reader,
            &mut out,
            case,
            &mut given[..case.length],
            &mut lent[..case.room],
        )?;
    }
    Ok(())
}

// The line that the reading program prints of a packet.

#![tactic(auto)]

ghost use Rattle.std.specs.Prelude.{◌≤◌, length, Ok, Some};
ghost use Rattle.codes.specs.Steps.Laid.{Fronted};
ghost use Rattle.lines.specs.Steps.Put.{room};
ghost use Rattle.report.specs.Line.{line_of};
ghost use Rattle.report.specs.Report.{Prints};
ghost use Rattle.report.specs.Steps.Put.{PutsLine};

use examine::Reading;
use header::Header;
use lines::Line;
use reader::ReadAnswer;
use std::fmt;

// The header bits to mend at most, the rate, which is 300 bps, and the room for the text (RULES, Reading program).
const MEND: u32 = 2;

const RATE_1200: bool = false;

const TEXT: usize = 65536;

// An answer of the reader, which is printed as its line, with the line's end.
#[derive(Clone, Copy)]
pub struct Report(pub ReadAnswer);

impl fmt::Display for Report {
    ghost output = { λ report. Some (line_of report.0) };

    fn fmt<W: fmt::Write>(&self, f: &mut fmt::Formatter<W>) -> fmt::Result {
        let Report(answer) = *self;
        match answer {
            Ok(reading) => {
                let Reading {
                    format,
                    sync,
                    mended,
                    mask,
                    data_length,
                    text_length,
                    ..
                } = reading;
                let format = Header::number(format);
                let sync = u32::from(sync);
                writeln!(
                    f,
                    "ok {format} {sync} {mended} {mask:08X} {data_length} {text_length}"
                )
            }
            Err(refusal) => {
                let number = refusal.number();
                writeln!(f, "refused {number}")
            }
        }
    }
}

// What the reading program reports of the packet at the front of a slice.
pub fn of_packet(packet: &[u8]) -> Report
    ensures { Prints packet.now (line_of result.0) }
{
    let mut text = [0u8; TEXT];
    Report(reader::read_mending(MEND, RATE_1200, packet, &mut text))
}

// The line of a packet that was read, at the front of `out`.
fn put_reading(reading: Reading, out: &mut [u8]) -> usize
    requires { room ≤ length out.old }
    ensures { Fronted (line_of (Ok reading)) out.old out.new result }
{
    let format = reading.format;
    let counts = [
        Header::number(format) as usize,
        header::one_if(reading.sync) as usize,
        reading.mended as usize,
    ];
    let counted = lines::put_word(b"ok", &counts, out);
    let masked = lines::put_mask(reading.mask, out, counted);
    let end = lines::put_spaced(&[reading.data_length, reading.text_length], out, masked);
    lines::put_end(out, end)
}

// The line of an answer, at the front of `out`.
pub fn line(answer: ReadAnswer, out: &mut [u8]) -> usize
    requires { room ≤ length out.old }
    ensures { Fronted (line_of answer) out.old out.new result }
{
    match answer {
        Ok(reading) => put_reading(reading, out),
        Err(refusal) => lines::put_refused(refusal.number() as usize, out),
    }
}

impl Line for Report {
    ghost told = { λ report. line_of report.0 };

    fn put(&self, out: &mut [u8]) -> usize {
        line(self.0, out)
    }
}

// The line of the packet at the front of a slice, at the front of `out`.
pub fn packet_line(packet: &[u8], out: &mut [u8]) -> usize
    requires { room ≤ length out.old }
    ensures { PutsLine packet.now out.old out.new result }
{
    let Report(answer) = of_packet(packet);
    line(answer, out)
}

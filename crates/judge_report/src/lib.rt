// The line that the program for the bench prints of a packet.

#![tactic(auto)]

ghost use Rattle.std.specs.Prelude.{◌≤◌, length, Ok, Some};
ghost use Rattle.codes.specs.Steps.Laid.{Fronted};
ghost use Rattle.lines.specs.Steps.Put.{room};
ghost use Rattle.judge_report.specs.Line.{line_of};
ghost use Rattle.judge_report.specs.Report.{Prints};
ghost use Rattle.judge_report.specs.Steps.Put.{PutsLine};

use apart::Judgement;
use judge::JudgeAnswer;
use lines::Line;
use std::fmt;
use terms::Terms;

// The rate, which is 300 bps (RULES, Judging); the header bits to mend are those of a caller who names none.
const RATE_1200: bool = false;

// An answer of judging, which is printed as its line, with the line's end.
#[derive(Clone, Copy)]
pub struct Report(pub JudgeAnswer);

impl fmt::Display for Report {
    ghost output = { λ report. Some (line_of report.0) };

    fn fmt<W: fmt::Write>(&self, f: &mut fmt::Formatter<W>) -> fmt::Result {
        let Report(answer) = *self;
        match answer {
            Ok(judgement) => {
                let more = judgement.more;
                match judgement.departs_at {
                    None => writeln!(f, "ours {more}"),
                    Some(bit) => writeln!(f, "departs {bit} {more}"),
                }
            }
            Err(refusal) => {
                let number = refusal.number();
                writeln!(f, "refused {number}")
            }
        }
    }
}

// What the program reports of the packet at the front of a slice.
pub fn of_packet(packet: &[u8]) -> Report
    ensures { Prints packet.now (line_of result.0) }
{
    Report(judge::judge(Terms::MEND, RATE_1200, packet))
}

// The line of a packet that was judged, at the front of `out`.
fn put_judgement(judgement: Judgement, out: &mut [u8]) -> usize
    requires { room ≤ length out.old }
    ensures { Fronted (line_of (Ok judgement)) out.old out.new result }
{
    match judgement.departs_at {
        None => lines::put_line(b"ours", &[judgement.more], out),
        Some(bit) => lines::put_line(b"departs", &[bit, judgement.more], out),
    }
}

// The line of an answer, at the front of `out`.
pub fn line(answer: JudgeAnswer, out: &mut [u8]) -> usize
    requires { room ≤ length out.old }
    ensures { Fronted (line_of answer) out.old out.new result }
{
    match answer {
        Ok(judgement) => put_judgement(judgement, out),
        Err(refusal) => lines::put_refused(refusal.number() as usize, out),
    }
}

impl Line for Report {
    ghost told = { λ report. line_of report.0 };

    fn put(&self, out: &mut [u8]) -> usize {
        line(self.0, out)
    }
}

// The line of the packet at the front of a slice, at the front of `out`.
pub fn packet_line(packet: &[u8], out: &mut [u8]) -> usize
    requires { room ≤ length out.old }
    ensures { PutsLine packet.now out.old out.new result }
{
    let Report(answer) = of_packet(packet);
    line(answer, out)
}

// Judging other makers' transmitters: the entry point `judge`. No buffer is asked for: text and data stand on the stack (docs/DECISIONS.md has why).

#![tactic(auto)]

ghost use Rattle.std.specs.Prelude.{true, false, ◌≤◌, length};
ghost use Rattle.formats.specs.Data.{data_of};
ghost use Rattle.sections.specs.Sections.{joined};
ghost use Rattle.terms.specs.Terms.{most_at, naming};
ghost use Rattle.apart.specs.Comparison.{Against};
ghost use Rattle.judge.specs.Judge.{Judges};
ghost use Rattle.judge.specs.Steps.Judging.{longest_of, MayBeJudged, Fits, RefusesAs};

use apart::Judgement;
use header::Format;
use refusals::{ExamineRefusal, ReadRefusal};
use sections::Section;

// The longest texts that 4,000 and 16,000 data bytes carry: sixteen characters for each six bits.
const TEXT: usize = 85328;

const TEXT_1200: usize = 341328;

// How the data of a packet compares with ours, or why the packet is refused.
pub type JudgeAnswer = Result<Judgement, ExamineRefusal>;

// Data against what our writer sends for the text that it carries, by way of a buffer for ours.
fn judge_data(format: Format, theirs: &[u8], text: &[u8], ours: &mut [u8]) -> Judgement
    requires { MayBeJudged format theirs.now text.now (length ours.old) }
    ensures { Against theirs.now (data_of format text.now) result }
{
    let bytes = formats::put_data(format, text, ours);
    apart::compare(theirs, &ours[..bytes])
}

// One section, where it lies.
fn judge_one(format: Format, n: usize, came: &[u8], text: &[u8]) -> Judgement
    requires { Fits 4000 format n came.now text.now }
    ensures { Against (joined n came.now) (data_of format text.now) result }
{
    let mut ours = [0u8; Section::MOST];
    judge_data(format, &came[..n], text, &mut ours)
}

// Several, joined.
fn judge_several(format: Format, n: usize, came: &[u8], text: &[u8]) -> Judgement
    requires { Fits 16000 format n came.now text.now }
    ensures { Against (joined n came.now) (data_of format text.now) result }
{
    let mut theirs = [0u8; Section::ALL];
    let mut ours = [0u8; Section::ALL];
    sections::join(n, came, &mut theirs);
    judge_data(format, &theirs[..n], text, &mut ours)
}

// The n data bytes that came in sections, and the text that they carry.
fn judge_sections(format: Format, n: usize, came: &[u8], text: &[u8]) -> Judgement
    requires { Fits 16000 format n came.now text.now }
    ensures { Against (joined n came.now) (data_of format text.now) result }
{
    if Section::MOST < n {
        return judge_several(format, n, came, text);
    }
    judge_one(format, n, came, text)
}

// The reader's refusal, which is one of the packet.
fn of_packet(refusal: ReadRefusal) -> ExamineRefusal
    ensures { RefusesAs refusal result }
{
    match refusal {
        ReadRefusal::Packet(packet) => packet,
        ReadRefusal::NoRoom(_) => ExamineRefusal::OtherLength, // never: there is room for every text
    }
}

// The packet at the front of a slice, read into a buffer that holds the longest text at the rate.
fn judge_into(mend: u32, rate_1200: bool, packet: &[u8], text: &mut [u8]) -> JudgeAnswer
    requires { longest_of (most_at rate_1200) ≤ length text.old }
    ensures { Judges (naming mend rate_1200) packet.now result }
{
    match reader::read_mending(mend, rate_1200, packet, text) {
        Ok(reading) => Ok(judge_sections(
            reading.format,
            reading.data_length,
            &packet[4..],
            &text[..reading.text_length],
        )),
        Err(refusal) => Err(of_packet(refusal)),
    }
}

fn judge_300(mend: u32, packet: &[u8]) -> JudgeAnswer
    ensures { Judges (naming mend false) packet.now result }
{
    let mut text = [0u8; TEXT];
    judge_into(mend, false, packet, &mut text)
}

fn judge_1200(mend: u32, packet: &[u8]) -> JudgeAnswer
    ensures { Judges (naming mend true) packet.now result }
{
    let mut text = [0u8; TEXT_1200];
    judge_into(mend, true, packet, &mut text)
}

// Judges the packet at the front of a slice, at most so many header bits mended, at 1200 bps or else at 300: whether its data is just what our writer would
// have sent for the text that it carries.
pub fn judge(mend: u32, rate_1200: bool, packet: &[u8]) -> JudgeAnswer
    ensures { Judges (naming mend rate_1200) packet.now result }
{
    if rate_1200 {
        return judge_1200(mend, packet);
    }
    judge_300(mend, packet)
}

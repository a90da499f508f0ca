// The reader, the writer and the judging for C and Rust: their answers as plain structs.

#![tactic(auto)]

ghost use Rattle.std.specs.Prelude.{◌≡◌};
ghost use Rattle.terms.specs.Terms.{naming, usual};
ghost use Rattle.writer_for_c.specs.Replies.{RepliesToWrite};
ghost use Rattle.rosopyat_c.specs.Replies.{read_reply, judge_reply, RepliesToRead, RepliesToJudge};

use header::Header;
use judge::JudgeAnswer;
use reader::ReadAnswer;
use writer_for_c::WriteReply;

// A packet that was read (`refusal` 0), or why not: then every member but `refusal`, `number` and `codes` is 0.
#[repr(C)]
#[derive(Clone, Copy)]
pub struct ReadReply {
    pub refusal: u32,
    pub number: usize,
    pub format: u32,
    pub sync: u32,
    pub mended: u32,
    pub mask: u32,
    pub codes: usize,
    pub data_length: usize,
    pub text_length: usize,
    pub used: usize,
}

impl From<ReadAnswer> for ReadReply {
    ghost from_gives = { λ answer reply. reply ≡ read_reply answer };

    fn from(answer: ReadAnswer) -> Self {
        match answer {
            Ok(reading) => ReadReply {
                refusal: 0,
                number: 0,
                format: Header::number(reading.format),
                sync: header::one_if(reading.sync),
                mended: reading.mended,
                mask: reading.mask,
                codes: reading.codes,
                data_length: reading.data_length,
                text_length: reading.text_length,
                used: reading.used,
            },
            Err(refusal) => ReadReply {
                refusal: refusal.number(),
                number: refusal.value(),
                format: 0,
                sync: 0,
                mended: 0,
                mask: 0,
                codes: refusal.codes(),
                data_length: 0,
                text_length: 0,
                used: 0,
            },
        }
    }
}

// A packet that was judged (`refusal` 0), or why not: then `as_ours`, `departs_at` and `more` are 0.
#[repr(C)]
#[derive(Clone, Copy)]
pub struct JudgeReply {
    pub refusal: u32,
    pub number: usize,
    pub codes: usize,
    pub as_ours: u32,
    pub departs_at: usize,
    pub more: usize,
}

impl From<JudgeAnswer> for JudgeReply {
    ghost from_gives = { λ answer reply. reply ≡ judge_reply answer };

    fn from(answer: JudgeAnswer) -> Self {
        match answer {
            Ok(judgement) => JudgeReply {
                refusal: 0,
                number: 0,
                codes: 0,
                as_ours: header::one_if(judgement.departs_at.is_none()),
                departs_at: judgement.departs_at.unwrap_or(0),
                more: judgement.more,
            },
            Err(refusal) => JudgeReply {
                refusal: refusal.number(),
                number: refusal.value(),
                codes: refusal.codes(),
                as_ours: 0,
                departs_at: 0,
                more: 0,
            },
        }
    }
}

#[unsafe(no_mangle)]
pub extern "C" fn rosopyat_read_mending(
    mend: u32,
    rate_1200: bool,
    packet: &[u8],
    text: &mut [u8],
) -> ReadReply
    ensures { RepliesToRead (naming mend rate_1200) packet.now text.old result text.new }
{
    reader::read_mending(mend, rate_1200, packet, text).into()
}

#[unsafe(no_mangle)]
pub extern "C" fn rosopyat_read(rate_1200: bool, packet: &[u8], text: &mut [u8]) -> ReadReply
    ensures { RepliesToRead (usual rate_1200) packet.now text.old result text.new }
{
    reader::read(rate_1200, packet, text).into()
}

// As for loggers.
#[unsafe(no_mangle)]
pub extern "C" fn rosopyat_write(
    rate_1200: bool,
    format: u32,
    sync: bool,
    text: &[u8],
    packet: &mut [u8],
) -> WriteReply
    ensures { RepliesToWrite rate_1200 format sync text.now packet.old result packet.new }
{
    writer_for_c::write(rate_1200, format, sync, text, packet)
}

#[unsafe(no_mangle)]
pub extern "C" fn rosopyat_judge(mend: u32, rate_1200: bool, packet: &[u8]) -> JudgeReply
    ensures { RepliesToJudge (naming mend rate_1200) packet.now result }
{
    judge::judge(mend, rate_1200, packet).into()
}

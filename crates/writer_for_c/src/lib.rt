// The writer for C: its answer as a plain struct. Both archives export it.

#![tactic(auto)]

ghost use Rattle.std.specs.Prelude.{◌≡◌};
ghost use Rattle.writer_for_c.specs.Replies.{write_reply, RepliesToWrite};

use writer::WriteAnswer;

// A packet that was written (`refusal` 0), or why not: then `length` is 0.
#[repr(C)]
#[derive(Clone, Copy)]
pub struct WriteReply {
    pub refusal: u32,
    pub number: usize,
    pub length: usize,
}

impl From<WriteAnswer> for WriteReply {
    ghost from_gives = { λ answer reply. reply ≡ write_reply answer };

    fn from(answer: WriteAnswer) -> Self {
        match answer {
            Ok(length) => WriteReply {
                refusal: 0,
                number: 0,
                length,
            },
            Err(refusal) => WriteReply {
                refusal: refusal.number(),
                number: refusal.value(),
                length: 0,
            },
        }
    }
}

pub fn write(rate_1200: bool, format: u32, sync: bool, text: &[u8], packet: &mut [u8]) -> WriteReply
    ensures { RepliesToWrite rate_1200 format sync text.now packet.old result packet.new }
{
    writer::write(rate_1200, format, sync, text, packet).into()
}

// The archive for loggers that only send: the writer alone.

#![tactic(auto)]

ghost use Rattle.writer_for_c.specs.Replies.{RepliesToWrite};

use writer_for_c::WriteReply;

#[unsafe(no_mangle)]
pub extern "C" fn rosopyat_write(
    rate_1200: bool,
    format: u32,
    sync: bool,
    text: &[u8],
    packet: &mut [u8],
) -> WriteReply
    ensures { RepliesToWrite rate_1200 format sync text.now packet.old result packet.new }
{
    writer_for_c::write(rate_1200, format, sync, text, packet)
}

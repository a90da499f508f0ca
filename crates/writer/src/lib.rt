// The writer: the entry point `write`.

#![tactic(auto)]

ghost use Rattle.std.specs.Prelude.{◌++◌, ◌≡◌, ◌+◌, ◌^◌, ◌≤◌, ◌<◌, length, take, drop};
ghost use Rattle.header.specs.Fields.{bytes_of};
ghost use Rattle.formats.specs.Data.{AllCoded, data_of};
ghost use Rattle.packet.specs.Packet.{whole_length, packet_of, header_for};
ghost use Rattle.terms.specs.Terms.{MayBeNamed, usual};
ghost use Rattle.writer.specs.Writer.{our_packet, Writes};

use header::{Format, Header};
use refusals::WriteRefusal;
use terms::Terms;

// How many bytes the packet has that was written, or why none was.
pub type WriteAnswer = Result<usize, WriteRefusal>;

// The four bytes of a header, at the front of the packet.
fn put_header(header: u32, packet: &mut [u8])
    requires { 4 ≤ length packet.old }
    ensures { packet.new ≡ bytes_of header ++ drop 4 packet.old }
{
    let [first, second, third, fourth] = header.to_be_bytes();
    packet[0] = first;
    packet[1] = second;
    packet[2] = third;
    packet[3] = fourth;
}

// The n data bytes in sections, each with its checksum behind it, and the header in front.
fn put_frame(format: Format, sync: bool, n: usize, packet: &mut [u8])
    requires { (n < 2 ^ 14) × (whole_length n ≤ length packet.old) }
    ensures { packet.new ≡ packet_of (header_for format sync n) (take n (drop 4 packet.old)) ++ drop (whole_length n) packet.old }
{
    sections::divide(n, &mut packet[4..]);
    put_header(
        Header::from_fields(Header::number(format), sync, n as u16).to_bits(),
        packet,
    );
}

// The packet of a text with codes, whose data has n bytes, at the front of the packet buffer: the data in its place, then the frame around it.
fn put_packet(format: Format, sync: bool, text: &[u8], n: usize, packet: &mut [u8])
    requires { AllCoded format text.now × (n ≡ length (data_of format text.now)) × (n < 2 ^ 14) × (whole_length n ≤ length packet.old) }
    ensures { packet.new ≡ our_packet format sync text.now ++ drop (whole_length n) packet.old }
{
    let end = n + 4;
    formats::put_data(format, text, &mut packet[4..end]);
    put_frame(format, sync, n, packet);
}

// A text written as a packet into a packet buffer, under terms.
fn write_under(terms: Terms, format: u32, sync: bool, text: &[u8], packet: &mut [u8]) -> WriteAnswer
    requires { MayBeNamed terms }
    ensures { Writes terms format sync text.now packet.old result packet.new }
{
    let Some(named) = Header::format_of(format) else {
        return Err(WriteRefusal::OtherFormat);
    };
    if text.len() == 0 {
        return Err(WriteRefusal::Empty);
    }
    let n = formats::data_length(named, text, terms.most)?;
    let whole = packet::whole_length(n);
    if packet.len() < whole {
        return Err(WriteRefusal::NoRoom(whole));
    }
    put_packet(named, sync, text, n, packet);
    Ok(whole)
}

// Writes a text as a packet into a packet buffer, at 1200 bps or else at 300.
pub fn write(
    rate_1200: bool,
    format: u32,
    sync: bool,
    text: &[u8],
    packet: &mut [u8],
) -> WriteAnswer
    ensures { Writes (usual rate_1200) format sync text.now packet.old result packet.new }
{
    write_under(Terms::usual(rate_1200), format, sync, text, packet)
}

// What is found out about a packet without a text buffer: the entry points `examine` and `examine_mending`.

#![tactic(auto)]

ghost use Rattle.terms.specs.Terms.{OnePacket, naming, usual};
ghost use Rattle.examine.specs.Examine.{Examines};
ghost use Rattle.examine.specs.Steps.Reading.{FindsHeader};

use header::{Format, Header};
use mending::Mending;
use refusals::ExamineRefusal;
use terms::Terms;

// An accepted packet: its format and sync bit, how many header bits were mended and which, how many codes were read, the lengths of data and text, and the
// bytes used. Why the mask does not stand beside the count: docs/DECISIONS.md.
#[derive(Clone, Copy, Debug, PartialEq, Eq)]
pub struct Reading {
    pub format: Format,
    pub sync: bool,
    pub mended: u32,
    pub data_length: usize,
    pub mask: u32,
    pub codes: usize,
    pub text_length: usize,
    pub used: usize,
}

// What is found out about a packet, or why it is refused.
pub type ExamineAnswer = Result<Reading, ExamineRefusal>;

// Tests 17 and 1 to 5: a number that may be named, the header that the packet is read as, its type and length, and bytes enough. The members of the answer
// are put together here, all but the text's length and the codes.
fn find_header(terms: Terms, packet: &[u8]) -> ExamineAnswer
    requires { OnePacket terms.most }
    ensures { FindsHeader terms packet.now result }
{
    if Terms::MOST_MENDED < terms.mend {
        return Err(ExamineRefusal::TooManyBits); // tested first of all
    }
    if packet.len() < 4 {
        return Err(ExamineRefusal::Short);
    }
    let received = header::word(packet[0], packet[1], packet[2], packet[3]);
    let Mending::Mended(bits, mended) = mending::mend(received, terms.mend) else {
        return Err(ExamineRefusal::NoHeader);
    };
    let fields = Header::from_bits(bits);
    let Some(format) = fields.format() else {
        return Err(ExamineRefusal::OtherType);
    };
    let length = fields.length as usize;
    let sync = fields.sync;
    let most = terms.most as usize;
    if length == 0 {
        return Err(ExamineRefusal::OtherLength); // no data
    }
    if most < length {
        return Err(ExamineRefusal::OtherLength); // too much
    }
    let used = packet::whole_length(length);
    if packet.len() < used {
        return Err(ExamineRefusal::CutOff); // too few bytes
    }
    Ok(Reading {
        format,
        sync,
        mended,
        mask: received ^ bits,
        codes: 0,
        data_length: length,
        text_length: 0,
        used,
    })
}

// What is found out about the packet at the front of a slice, under terms.
pub fn examine_under(terms: Terms, packet: &[u8]) -> ExamineAnswer
    requires { OnePacket terms.most }
    ensures { Examines terms packet.now result }
{
    let found = find_header(terms, packet)?;
    if let Some(section) = sections::judge(found.data_length, &packet[4..]) {
        return Err(ExamineRefusal::Checksum(section));
    }
    let extent = section_data::take_apart(found.format, found.data_length, &packet[4..])?;
    Ok(Reading {
        codes: extent.codes,
        text_length: extent.characters,
        ..found
    })
}

// Finds out about the packet at the front of a slice all but its text, at most so many header bits mended, at 1200 bps or else at 300. Bytes after the
// packet's last checksum are not looked at.
pub fn examine_mending(mend: u32, rate_1200: bool, packet: &[u8]) -> ExamineAnswer
    ensures { Examines (naming mend rate_1200) packet.now result }
{
    examine_under(Terms::naming(mend, rate_1200), packet)
}

// The same, at most one header bit mended.
pub fn examine(rate_1200: bool, packet: &[u8]) -> ExamineAnswer
    ensures { Examines (usual rate_1200) packet.now result }
{
    examine_under(Terms::usual(rate_1200), packet)
}

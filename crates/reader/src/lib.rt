// The reader: the entry points `read` and `read_mending`.

#![tactic(auto)]

ghost use Rattle.std.specs.Prelude.{Ok};
ghost use Rattle.terms.specs.Terms.{OnePacket, MayBeNamed, naming, usual};
ghost use Rattle.examine.specs.Examine.{Examines};
ghost use Rattle.reader.specs.Reader.{Reads};

use examine::Reading;
use refusals::ReadRefusal;
use terms::Terms;

// A packet that was read, or why it was not.
pub type ReadAnswer = Result<Reading, ReadRefusal>;

// Test 8, and the text of a packet that can be read in the buffer where it is passed.
fn read_text(terms: Terms, reading: Reading, packet: &[u8], text: &mut [u8]) -> ReadAnswer
    requires { MayBeNamed terms × Examines terms packet.now (Ok reading) }
    ensures { Reads terms packet.now text.old result text.new }
{
    let needed = reading.text_length;
    if text.len() < needed {
        return Err(ReadRefusal::NoRoom(needed));
    }
    section_data::put_text(reading.format, reading.data_length, &packet[4..], text);
    Ok(reading)
}

// The packet at the front of a slice read into a text buffer, under terms.
fn read_under(terms: Terms, packet: &[u8], text: &mut [u8]) -> ReadAnswer
    requires { OnePacket terms.most }
    ensures { Reads terms packet.now text.old result text.new }
{
    let reading = examine::examine_under(terms, packet)?;
    read_text(terms, reading, packet, text)
}

// Reads the packet at the front of a slice into a text buffer, at most so many header bits mended.
pub fn read_mending(mend: u32, rate_1200: bool, packet: &[u8], text: &mut [u8]) -> ReadAnswer
    ensures { Reads (naming mend rate_1200) packet.now text.old result text.new }
{
    read_under(Terms::naming(mend, rate_1200), packet, text)
}

// The same, at most one header bit mended.
pub fn read(rate_1200: bool, packet: &[u8], text: &mut [u8]) -> ReadAnswer
    ensures { Reads (usual rate_1200) packet.now text.old result text.new }
{
    read_under(Terms::usual(rate_1200), packet, text)
}

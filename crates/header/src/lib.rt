// The header of a packet: its fields, its check bits and its parity (001, 3.1 and 3.2).

#![tactic(auto)]

ghost use Rattle.std.specs.Prelude.{◌≡◌, ◌^◌, ◌<◌};
ghost use Rattle.header.specs.Check.{check_of};
ghost use Rattle.header.specs.Fields.{fields_in, header_of, sent_fields, Fit, low_flag, one_if, word_of};
ghost use Rattle.header.specs.Flag.{parity_for};
ghost use Rattle.header.specs.Formats.{format_number, FormatOfNumber, FormatInHeader};
ghost use Rattle.header.specs.Steps.Differences.{Multiple, difference_in, WithParity};

// The formats that we read and write, each with its extended type (001, 3.1, Table 2).
#[derive(Clone, Copy, Debug, PartialEq, Eq)]
pub enum Format {
    Open = 0,
    PseudoBinary = 1,
    Numeric = 2,
    Shef = 3,
    FullAscii = 4,
}

// What the type bits say: one of our formats, or none.
pub type WhichFormat = Option<Format>;

#[derive(Clone, Copy, Debug, PartialEq, Eq)]
pub struct Header {
    // bits 7/6 of the flag
    pub message_type: u32,
    // bits 5/4/3
    pub extended_type: u32,
    // bit 2
    pub sync: bool,
    // bit 1, sent 0
    pub spare: bool,
    // the number of data bytes
    pub length: u16,
}

impl Header {
    // The message type of every binary packet.
    pub const BINARY: u32 = 2;
    // The extended types.
    pub const OPEN: u32 = 0;

    pub const PSEUDO_BINARY: u32 = 1;

    pub const NUMERIC: u32 = 2;

    pub const SHEF: u32 = 3;

    pub const FULL_ASCII: u32 = 4;
    // x^10 + x^9 + x^8 + x^6 + x^5 + x^3 + 1, of the check bits.
    pub const GENERATOR: u32 = 0x769;

    // The header that we send for these fields.
    pub fn from_fields(extended_type: u32, sync: bool, length: u16) -> Self
        ensures { result ≡ sent_fields extended_type sync length }
    {
        Header {
            message_type: Header::BINARY,
            extended_type,
            sync,
            spare: false,
            length,
        }
    }

    // The fields of 32 bits, valid or not.
    pub fn from_bits(word: u32) -> Self
        ensures { result ≡ fields_in word }
    {
        let flag = word / 0x100_0000;
        Header {
            message_type: flag / 32 % 4,
            extended_type: flag / 4 % 8,
            sync: flag / 2 % 2 == 1,
            spare: flag % 2 == 1,
            length: (word / 1024 % 16384) as u16,
        }
    }

    // The format that the type bits pick; none where the spare bit is 1 or the type is not one of ours.
    pub fn format(self) -> WhichFormat
        ensures { FormatInHeader self result }
    {
        if self.spare || self.message_type != Header::BINARY {
            return None;
        }
        Header::format_of(self.extended_type)
    }

    // The format of a number, which is its extended type.
    pub fn format_of(number: u32) -> WhichFormat
        ensures { FormatOfNumber number result }
    {
        match number {
            Header::OPEN => Some(Format::Open),
            Header::PSEUDO_BINARY => Some(Format::PseudoBinary),
            Header::NUMERIC => Some(Format::Numeric),
            Header::SHEF => Some(Format::Shef),
            Header::FULL_ASCII => Some(Format::FullAscii),
            _ => None,
        }
    }

    // The number of a format.
    pub fn number(format: Format) -> u32
        ensures { result ≡ format_number format }
    {
        format as u32
    }

    // The seven bits of the flag below its parity.
    fn low_flag(self) -> u32
        requires { Fit self }
        ensures { result ≡ low_flag self }
    {
        self.message_type * 32 + self.extended_type * 4 + one_if(self.sync) * 2 + one_if(self.spare)
    }

    // The 32 bits of a header: the flag with its parity, the length, and the check bits over both.
    pub fn to_bits(self) -> u32
        requires { Fit self }
        ensures { result ≡ header_of self }
    {
        let low = self.low_flag();
        let length = self.length as u32;
        let flag = parity_for(low) * 128 + low;
        flag * 0x100_0000 + length * 1024 + check_bits(low * 16384 + length)
    }
}

// 1 for a bit that is set.
pub fn one_if(set: bool) -> u32
    ensures { result ≡ one_if set }
{
    u32::from(set)
}

// The parity bit of a flag: 1 where the seven bits below it have an even number of ones.
fn parity_for(low: u32) -> u32
    requires { low < 2 ^ 7 }
    ensures { result ≡ parity_for low }
{
    (low.count_ones() + 1) % 2
}

// The multiple of the generator whose coefficients from x^10 up are these four bits: first those of the quotient, then its product with the generator.
fn multiple_for(top: u32) -> u32
    requires { top < 16 }
    ensures { Multiple top result }
{
    let quotient = (top ^ (top >> 1)) ^ (top >> 3);
    let lower = (quotient % 2 * Header::GENERATOR) ^ (quotient / 2 % 2 * (Header::GENERATOR * 2));
    let upper = (quotient / 4 % 2 * (Header::GENERATOR * 4))
        ^ (quotient / 8 % 2 * (Header::GENERATOR * 8));
    upper ^ lower
}

// The check bits: the remainder of a long division, four coefficients of the quotient at a time.
fn check_bits(information: u32) -> u32
    requires { information < 2 ^ 21 }
    ensures { result ≡ check_of information }
{
    let mut left: u32 = information << 10;
    for k in (0..6u32).rev() {
        left ^= multiple_for((left >> (4 * k + 10)) % 16) << (4 * k);
    }
    left
}

// In which check bits those that the information bits ask for and those that came differ: 0 where they are the same.
pub fn difference(word: u32) -> u32
    ensures { result ≡ difference_in word }
{
    check_bits(word / 1024 % 0x20_0000) ^ (word % 1024)
}

// The word with the parity bit that its flag asks for, all other bits as they are.
pub fn with_parity(word: u32) -> u32
    ensures { WithParity word result }
{
    parity_for(word / 0x100_0000 % 128) * 0x8000_0000 + word % 0x8000_0000
}

// The 32 bits of four bytes, the first byte at the top.
pub fn word(first: u8, second: u8, third: u8, fourth: u8) -> u32
    ensures { result ≡ word_of first second third fourth }
{
    u32::from_be_bytes([first, second, third, fourth])
}

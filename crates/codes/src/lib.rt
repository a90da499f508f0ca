// Codes in a row, then fill: definitions in specs/, what holds of every format of this shape in proofs/. The code is only what loops and steps answer each
// other.

#![tactic(auto)]

ghost use Rattle.std.specs.Prelude.{◌≡◌};
ghost use Rattle.codes.specs.declared.Unread.TheVariants.{Malformed};

// Data of so many bytes or more is not looked at: its bits or characters might not be counted in 64 bits.
pub const LIMIT: usize = 0x100_0000_0000_0000;

// What well-formed data comes to, its text unwritten: how many characters the text has, and how many indicators, values and codes were read.
#[derive(Clone, Copy, Debug, PartialEq, Eq)]
pub struct Extent {
    pub characters: usize,
    pub codes: usize,
}

// Where data is malformed: the bit at which its first unreadable indicator, value or code starts, counted from 0, and how many were read before it (001, 4).
#[derive(Clone, Copy, Debug, PartialEq, Eq)]
pub struct MalformedAt {
    pub bit: usize,
    pub codes: usize,
}

// What measuring comes to.
pub type Measured = Result<Extent, MalformedAt>;

// Why data of any length has no text: it is malformed, or so long (LIMIT) that it is not looked at.
#[derive(Clone, Copy, Debug, PartialEq, Eq)]
pub enum Unread {
    Malformed(MalformedAt),
    TooLong,
}

impl From<MalformedAt> for Unread {
    ghost from_gives = { λ at unread. unread ≡ Malformed at };

    fn from(at: MalformedAt) -> Unread {
        Unread::Malformed(at)
    }
}

// What data of any length comes to.
pub type Outcome = Result<Extent, Unread>;

// Why a text has no data: the index of its first character that has no code, or more bytes than a caller allows.
#[derive(Clone, Copy, Debug, PartialEq, Eq)]
pub enum Unfit {
    NoCode(usize),
    TooMany,
}

// How many data bytes a text takes.
pub type Needed = Result<usize, Unfit>;

// A code that was taken out of the bits: how many it has, and the one or two characters that it says.
#[derive(Clone, Copy)]
pub struct Code {
    pub width: u64,
    pub count: usize,
    pub first: u8,
    pub second: u8,
}

// What codes that were passed leave of the bits of a number, how many they are, and how many characters they say.
#[derive(Clone, Copy)]
pub struct Skimmed {
    pub left: u64,
    pub codes: usize,
    pub count: usize,
}

// What codes whose characters were put leave of the bits of a number, and how many characters these are.
#[derive(Clone, Copy)]
pub struct Laid {
    pub left: u64,
    pub count: usize,
}

// A code to be sent, or some in a row: the bits as a number, how many they are, and the characters that they take.
#[derive(Clone, Copy)]
pub struct Sent {
    pub bits: u64,
    pub width: u64,
    pub count: usize,
}

// What is not yet in the buffer, the lowest `have` bits of `held`, and where the next byte goes.
#[derive(Clone, Copy)]
pub struct Held {
    pub n: usize,
    pub held: u64,
    pub have: u64,
}

#![tactic(auto)]

ghost use Rattle.std.specs.Prelude.{◌≡◌};
ghost use Rattle.refusals.specs.declared.ReadRefusal.TheVariants.{Packet};
ghost use Rattle.refusals.specs.Refusals.{number_in, value_in, codes_told, examine_told, read_told, write_told};
ghost use Rattle.refusals.specs.Steps.Passed.{as_told, unread_as, unfit_as};

use codes::{Unfit, Unread};

// Why a packet cannot be read, whatever the room for its text. The numbers are in specs/Refusals.antt.
#[derive(Clone, Copy, Debug, PartialEq, Eq)]
pub enum ExamineRefusal {
    TooManyBits,
    Short,
    NoHeader,
    OtherType,
    OtherLength,
    CutOff,
    Checksum(usize),
    Malformed(usize, usize),
}

// Why it is not read into a buffer: the packet's own reason, or the buffer's.
#[derive(Clone, Copy, Debug, PartialEq, Eq)]
pub enum ReadRefusal {
    Packet(ExamineRefusal),
    NoRoom(usize),
}

// Why a text is not written.
#[derive(Clone, Copy, Debug, PartialEq, Eq)]
pub enum WriteRefusal {
    OtherFormat,
    Empty,
    NoCode(usize),
    TooLong,
    NoRoom(usize),
}

// What a refusal is told as: its number, the whole number that comes with it, and how many codes were read; each of these 0 where the refusal names none.
#[derive(Clone, Copy, Debug, PartialEq, Eq)]
pub struct Told {
    pub number: u32,
    pub value: usize,
    pub codes: usize,
}

impl ExamineRefusal {
    pub fn told(self) -> Told
        ensures { result ≡ as_told (examine_told self) }
    {
        let (number, value, codes) = match self {
            ExamineRefusal::TooManyBits => (17, 0, 0),
            ExamineRefusal::Short => (1, 0, 0),
            ExamineRefusal::NoHeader => (2, 0, 0),
            ExamineRefusal::OtherType => (3, 0, 0),
            ExamineRefusal::OtherLength => (4, 0, 0),
            ExamineRefusal::CutOff => (5, 0, 0),
            ExamineRefusal::Checksum(section) => (6, section, 0),
            ExamineRefusal::Malformed(bit, codes) => (7, bit, codes),
        };
        Told {
            number,
            value,
            codes,
        }
    }

    pub fn number(self) -> u32
        ensures { result ≡ number_in (examine_told self) }
    {
        self.told().number
    }

    // The whole number that comes with it.
    pub fn value(self) -> usize
        ensures { result ≡ value_in (examine_told self) }
    {
        self.told().value
    }

    // How many codes were read.
    pub fn codes(self) -> usize
        ensures { result ≡ codes_told (examine_told self) }
    {
        self.told().codes
    }
}

impl ReadRefusal {
    pub fn told(self) -> Told
        ensures { result ≡ as_told (read_told self) }
    {
        match self {
            ReadRefusal::Packet(refusal) => refusal.told(),
            ReadRefusal::NoRoom(needed) => Told {
                number: 8,
                value: needed,
                codes: 0,
            },
        }
    }

    pub fn number(self) -> u32
        ensures { result ≡ number_in (read_told self) }
    {
        self.told().number
    }

    // The whole number that comes with it.
    pub fn value(self) -> usize
        ensures { result ≡ value_in (read_told self) }
    {
        self.told().value
    }

    // How many codes were read, where the packet is refused for that.
    pub fn codes(self) -> usize
        ensures { result ≡ codes_told (read_told self) }
    {
        self.told().codes
    }
}

impl WriteRefusal {
    pub fn told(self) -> Told
        ensures { result ≡ as_told (write_told self) }
    {
        let (number, value) = match self {
            WriteRefusal::OtherFormat => (12, 0),
            WriteRefusal::Empty => (10, 0),
            WriteRefusal::NoCode(index) => (9, index),
            WriteRefusal::TooLong => (11, 0),
            WriteRefusal::NoRoom(needed) => (8, needed),
        };
        Told {
            number,
            value,
            codes: 0,
        }
    }

    pub fn number(self) -> u32
        ensures { result ≡ number_in (write_told self) }
    {
        self.told().number
    }

    // The whole number that comes with it.
    pub fn value(self) -> usize
        ensures { result ≡ value_in (write_told self) }
    {
        self.told().value
    }
}

// Data that has no text, as the packet's refusal.
impl From<Unread> for ExamineRefusal {
    ghost from_gives = { λ unread refusal. refusal ≡ unread_as unread };

    fn from(unread: Unread) -> Self {
        match unread {
            Unread::Malformed(at) => ExamineRefusal::Malformed(at.bit, at.codes),
            Unread::TooLong => ExamineRefusal::OtherLength, // never: a packet's data is short
        }
    }
}

// A text that has no data, as the writer's refusal.
impl From<Unfit> for WriteRefusal {
    ghost from_gives = { λ unfit refusal. refusal ≡ unfit_as unfit };

    fn from(unfit: Unfit) -> Self {
        match unfit {
            Unfit::NoCode(index) => WriteRefusal::NoCode(index),
            Unfit::TooMany => WriteRefusal::TooLong,
        }
    }
}

impl From<ExamineRefusal> for ReadRefusal {
    ghost from_gives = { λ refusal read. read ≡ Packet refusal };

    fn from(refusal: ExamineRefusal) -> Self {
        ReadRefusal::Packet(refusal)
    }
}

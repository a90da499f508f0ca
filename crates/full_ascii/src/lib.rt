// Compact Full ASCII (001, 4.5): its table and what our writer builds in specs/, their theorems in proofs/; here the numbers that reading and writing share.

#![tactic(auto)]

// The control characters that have a code.
#[derive(Clone, Copy)]
pub struct Character;

impl Character {
    pub const HT: u8 = 9;

    pub const LF: u8 = 10;

    pub const CR: u8 = 13;
}

// The codes of nine bits, as numbers: theirs, and that of CR with LF after it. A number below them begins with a code of six or seven bits.
#[derive(Clone, Copy)]
pub struct Special;

impl Special {
    pub const HT: u64 = 508;

    pub const CR: u64 = 509;

    pub const LF: u64 = 510;

    pub const PAIR: u64 = 511;
}

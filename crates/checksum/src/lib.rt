// The 16-bit checksum of the packet data (document 001, 3.3).

#![tactic(auto)]

ghost use Rattle.std.specs.Prelude.{◌≡◌, [], ◌∷◌, ◌/◌, ◌%◌};
ghost use Rattle.checksum.specs.Checksum.{checksum_of, checksum_bytes};
ghost use Rattle.bits.specs.Says.{Says};

// The checksum of the data, of any length.
pub fn checksum(data: &[u8]) -> u16
    ensures { result ≡ checksum_of «data».now }
{
    register::after(data)
}

// The byte of the checksum that is sent first.
pub fn low_byte(sum: u16) -> u8
    ensures { result ≡ sum % 256 }
{
    (sum % 256) as u8
}

// The byte of the checksum that is sent last.
pub fn high_byte(sum: u16) -> u8
    ensures { result ≡ sum / 256 }
{
    (sum / 256) as u8
}

// Whether the two bytes that follow the data are its checksum, the low byte first.
pub fn agrees(data: &[u8], low: u8, high: u8) -> bool
    ensures { Says result (low ∷ high ∷ [] ≡ checksum_bytes «data».now) }
{
    let sum = checksum(data);
    low_byte(sum) == low && high_byte(sum) == high
}

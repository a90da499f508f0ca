// The register of the 16-bit checksum (document 001, 3.3): what it holds after bytes, worked out half a byte at a time from one table.

#![tactic(auto)]

ghost use Rattle.std.specs.Prelude.{◌≡◌, ◌<◌};
ghost use Rattle.register.specs.Register.{bit_step, bit_steps, byte_step, start, checksum_from};
ghost use Rattle.register.specs.Steps.Halves.{half_step};
ghost use Rattle.register.specs.Steps.Parts.{Turned, SideBySide};

// By half a byte, what it leaves in an empty register.
const HALVES: [u16; 16] = [
    0x0000, 0xD175, 0x739F, 0xA2EA, 0xE73E, 0x364B, 0x94A1, 0x45D4, 0x1F09, 0xCE7C, 0x6C96, 0xBDE3,
    0xF837, 0x2942, 0x8BA8, 0x5ADD,
];

const START: u16 = 0xFFFF;

// The polynomial, without its highest power.
const FEEDBACK: u16 = 0xD175;

// Half a byte enters at the register's top, and its four bits pass. What lies below the top only moves up.
fn half_step(register: u16, half: u8) -> u16
    requires { half < 16 }
    ensures { result ≡ half_step register half }
{
    let leaving = (register >> 12) ^ (half as u16);
    (register << 4) ^ HALVES[leaving as usize]
}

// A byte enters, its upper half first.
fn byte_step(register: u16, byte: u8) -> u16
    ensures { result ≡ byte_step register byte }
{
    let moved = half_step(register, byte / 16);
    half_step(moved, byte % 16)
}

// The register moves up by one bit; a one that leaves at its top feeds back.
fn bit_step(register: u16) -> u16
    ensures { result ≡ bit_step register }
{
    if register < 0x8000 {
        register << 1
    } else {
        (register << 1) ^ FEEDBACK
    }
}

// The register after a part of zeros. Divided by the polynomial, x^192 and x^2 (1 + x + x^8 + x^9 + x^2) leave the same.
fn past_part(register: u16) -> u16
    ensures { result ≡ bit_steps 192 register }
{
    let once = bit_step(register);
    let both = register ^ once;
    let far = byte_step(both, 0);
    let sum = (both ^ far) ^ bit_step(once);
    bit_step(bit_step(sum))
}

// What four registers hold, each after a part of the data: 24 bytes.
#[derive(Clone, Copy, Debug, PartialEq, Eq)]
struct Parts {
    first: u16,
    second: u16,
    third: u16,
    fourth: u16,
}

// A byte more of each of four parts: that of the first is at place k.
fn turn(parts: Parts, data: &[u8; 96], k: usize) -> Parts
    requires { k < 24 }
    ensures { Turned parts «data».now k result }
{
    Parts {
        first: byte_step(parts.first, data[k]),
        second: byte_step(parts.second, data[k + 24]),
        third: byte_step(parts.third, data[k + 48]),
        fourth: byte_step(parts.fourth, data[k + 72]),
    }
}

// Four parts in a row, taken side by side: no register waits for another. All but the first start empty.
fn side_by_side(register: u16, data: &[u8; 96]) -> Parts
    ensures { SideBySide 24 register «data».now 0 result }
{
    let mut parts = Parts {
        first: register,
        second: 0,
        third: 0,
        fourth: 0,
    };
    for k in 0..24 {
        parts = turn(parts, data, k);
    }
    parts
}

// The register after four parts: what it holds after the first ones moves on, past the next, and is put together with what that leaves alone.
fn four_parts(register: u16, data: &[u8; 96]) -> u16
    ensures { result ≡ checksum_from register «data».now }
{
    let parts = side_by_side(register, data);
    let two = past_part(parts.first) ^ parts.second;
    let three = past_part(two) ^ parts.third;
    past_part(three) ^ parts.fourth
}

// The register after the data, byte by byte.
fn each_step(register: u16, data: &[u8]) -> u16
    ensures { result ≡ checksum_from register «data».now }
{
    let mut moved = register;
    for byte in data {
        moved = byte_step(moved, *byte);
    }
    moved
}

// What the register holds after the data, of any length, from its start: by four parts at a time, and the last bytes, fewer than 96, one by one.
pub fn after(data: &[u8]) -> u16
    ensures { result ≡ checksum_from start «data».now }
{
    let mut moved = START;
    let mut rest = data;
    while let Some((parts, behind)) = rest.split_first_chunk::<96>() {
        moved = four_parts(moved, parts);
        rest = behind;
    }
    each_step(moved, rest)
}

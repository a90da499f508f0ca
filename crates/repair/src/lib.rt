// The bits of a received header that are wrong, told by the check bits: a table of what these and those worked out may differ in.

#![tactic(auto)]

ghost use Rattle.std.specs.Prelude.{◌≡◌, ◌+◌, ◌/◌, ◌%◌, ◌^◌, ◌≤◌, ◌<◌, slice_index};
ghost use Rattle.repair.specs.Steps.Repair.{Repairs};
ghost use Rattle.repair.specs.Table.{entries};

mod differences;

// The entry of a difference for which there are no bits to be had.
const NOTHING: u16 = 99_99;

// A word with a 1 at a place, or none where the place is the parity's.
fn bit_at(place: u32) -> u32
    requires { place < 32 }
    ensures { result ≡ 2 ^ place % 2 ^ 31 }
{
    (1u32 << place) % 0x8000_0000
}

// What the rule's entry of a difference is.
fn entry_of(difference: u32) -> u16
    requires { difference < 2 ^ 10 }
    ensures { result ≡ slice_index entries difference }
{
    differences::ENTRIES[difference as usize]
}

// The at most two bits that leave a difference, each a 1 at its place, as its entry says; none where no two bits leave it, nor fewer. A header without a
// difference does not pay for the table.
pub fn repair(difference: u32) -> Option<u32>
    requires { difference < 2 ^ 10 }
    ensures { Repairs difference result }
{
    if difference == 0 {
        return Some(0);
    }
    let entry = entry_of(difference);
    if entry == NOTHING {
        return None;
    }
    let places = entry as u32;
    Some(bit_at(places / 100) + bit_at(places % 100))
}

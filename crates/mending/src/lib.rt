// Mending a received header: the valid header at most so many bits away, parity bit included (RULES, Packet).

#![tactic(auto)]

ghost use Rattle.std.specs.Prelude.{◌≤◌};
ghost use Rattle.mending.specs.Mends.{MendsWithin};

#[derive(Clone, Copy, Debug, PartialEq, Eq)]
pub enum Mending {
    // The valid header, and in how many bits the received one differs from it.
    Mended(u32, u32),
    // No valid header is near enough.
    Hopeless,
}

// The valid header that a received word is read as, where at most so many bits are mended.
pub fn mend(received: u32, limit: u32) -> Mending
    requires { limit ≤ 2 }
    ensures { MendsWithin limit received result }
{
    let Some(mask) = repair::repair(header::difference(received)) else {
        return Mending::Hopeless;
    };
    let turned = received ^ mask;
    let header = header::with_parity(turned);
    let bits = (received ^ header).count_ones();
    if limit < bits {
        return Mending::Hopeless;
    }
    Mending::Mended(header, bits)
}

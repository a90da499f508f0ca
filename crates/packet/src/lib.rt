// The parts of a packet, and a packet that was sent: definitions and laws; and how long a packet is.

#![tactic(auto)]

ghost use Rattle.std.specs.Prelude.{◌≡◌, ◌^◌, ◌<◌};
ghost use Rattle.packet.specs.Packet.{whole_length};

// How many bytes a packet of n data bytes has.
pub fn whole_length(n: usize) -> usize
    requires { n < 2 ^ 14 }
    ensures { result ≡ whole_length n }
{
    n + 4 + 2 * sections::count(n)
}

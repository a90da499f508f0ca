// Where two rows of bytes part: the first bit at which they differ; and how another maker's data compares with ours.

#![tactic(auto)]

ghost use Rattle.std.specs.Prelude.{◌≡◌, ◌<◌, length};
ghost use Rattle.codes.specs.Steps.Measure.{countable};
ghost use Rattle.apart.specs.Comparison.{Against};
ghost use Rattle.apart.specs.Steps.Parting.{HighestApart, PartsAt, Comparable};

// The highest bit in which two bytes differ, by the power of two that it stands for.
fn highest_apart(a: u8, b: u8) -> u32
    requires { a ≡ b → ⊥ }
    ensures { HighestApart a b result }
{
    7 - (a ^ b).leading_zeros()
}

// The first bit at which two rows of bytes differ, the top bit of each byte first; or that there is none, since one is the front of the other.
pub fn first_apart(a: &[u8], b: &[u8]) -> Option<usize>
    requires { length a.now < countable }
    ensures { PartsAt a.now b.now result }
{
    for i in 0..a.len().min(b.len()) {
        if a[i] != b[i] {
            return Some(8 * i + 7 - highest_apart(a[i], b[i]) as usize);
        }
    }
    None
}

// How another maker's data compares with ours (001, 3.3).
#[derive(Clone, Copy, Debug, PartialEq, Eq)]
pub struct Judgement {
    // the first bit at which it departs from ours; none where it is just ours
    pub departs_at: Option<usize>,
    // how many bytes more than ours it has
    pub more: usize,
}

// Data against ours.
pub fn compare(theirs: &[u8], ours: &[u8]) -> Judgement
    requires { Comparable theirs.now ours.now }
    ensures { Against theirs.now ours.now result }
{
    let departs_at = first_apart(theirs, ours);
    let more = theirs.len() - ours.len();
    Judgement { departs_at, more }
}

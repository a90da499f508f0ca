// What a caller sets of reading and writing.

#![tactic(auto)]

ghost use Rattle.std.specs.Prelude.{◌≡◌};
ghost use Rattle.terms.specs.Terms.{most_at, naming, usual};

// The most header bits to mend, and the most data bytes.
#[derive(Clone, Copy)]
pub struct Terms {
    pub mend: u32,
    pub most: u16,
}

impl Terms {
    // The most header bits that are mended where a caller names no number.
    pub const MEND: u32 = 1;
    // The most that a caller may name.
    pub const MOST_MENDED: u32 = 2;
    // The most data bytes of one packet at 300 bps.
    pub const MOST: u16 = 4000;
    // The same at 1200 bps.
    pub const MOST_1200: u16 = 16000;

    // The most data bytes at a rate.
    pub fn most_at(rate_1200: bool) -> u16
        ensures { result ≡ most_at rate_1200 }
    {
        if rate_1200 {
            return Terms::MOST_1200;
        }
        Terms::MOST
    }

    // Those of a call that names the number of bits, which need not be one that may be named, and the rate.
    pub fn naming(mend: u32, rate_1200: bool) -> Self
        ensures { result ≡ naming mend rate_1200 }
    {
        let most = Terms::most_at(rate_1200);
        Terms { mend, most }
    }

    // Those of a call that names the rate alone.
    pub fn usual(rate_1200: bool) -> Self
        ensures { result ≡ usual rate_1200 }
    {
        Terms::naming(Terms::MEND, rate_1200)
    }
}

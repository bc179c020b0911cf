ghost use Rattle.std.specs.Prelude.{◌≡◌};
ghost use Rattle.draws.specs.SplitMix64.{mixed, stepped};

// The generator that makes words out of a seed: a 64-bit counter whose values are mixed.
#[derive(Clone, Copy)]
pub struct SplitMix64 {
    pub x: u64,
}

// An output, and the counter after it.
#[derive(Clone, Copy)]
pub struct Mixed {
    pub output: u64,
    pub state: SplitMix64,
}

impl SplitMix64 {
    pub fn next(self) -> Mixed
        ensures { result ≡ stepped self }
    {
        let x = self.x.wrapping_add(0x9e37_79b9_7f4a_7c15);
        Mixed {
            output: mix(x),
            state: SplitMix64 { x },
        }
    }
}

// The output that a value of the counter gives.
#[tactic(auto, unfolding(crate::specs::SplitMix64::mixed))]
fn mix(x: u64) -> u64
    ensures { result ≡ mixed x }
{
    let y = (x ^ (x >> 30)).wrapping_mul(0xbf58_476d_1ce4_e5b9);
    let z = (y ^ (y >> 27)).wrapping_mul(0x94d0_49bb_1331_11eb);
    z ^ (z >> 31)
}

ghost use Rattle.std.specs.Prelude.{◌≡◌};
ghost use Rattle.draws.specs.Draws.{sample_of, unit_of, draw_of, told_positive, positive_of};

use crate::generator::{Drawn, Rng};

// What a draw is made from: always one value, or uniform from min to max.
#[derive(Clone, Copy)]
pub enum ContinuousDistribution {
    Always(f64),
    Uniform(f64, f64),
}

// The sample in [0, 1) that an output gives: k / 2^52, where k is the output divided by 4,096,
// rounded down.
pub fn sample(output: u64) -> f64
    ensures { result ≡ sample_of output }
{
    (output / 4096) as f64 / 4503599627370496.0
}

// Draws one word, and gives its sample in [0, 1).
#[tactic(auto, unfolding(crate::specs::Draws::unit_of))]
pub fn sample_unit(rng: Rng) -> Drawn<f64>
    ensures { result ≡ unit_of rng }
{
    let word = rng.next();
    Drawn {
        value: sample(word.value),
        rng: word.rng,
    }
}

impl ContinuousDistribution {
    // Uniform draws one word; always draws none.
    #[tactic(auto, unfolding(crate::specs::Draws::draw_of, crate::specs::Draws::uniform_of))]
    pub fn sample(self, rng: Rng) -> Drawn<f64>
        ensures { result ≡ draw_of self rng }
    {
        match self {
            ContinuousDistribution::Always(value) => Drawn { value, rng },
            ContinuousDistribution::Uniform(min, max) => {
                let unit = sample_unit(rng);
                Drawn {
                    value: unit.value * (max - min) + min,
                    rng: unit.rng,
                }
            }
        }
    }

    // Draws until a sample is positive, at most eight times: that sample, or none where eight draws
    // brought none.
    pub fn sample_positive(self, rng: Rng) -> Drawn<Option<f64>>
        ensures { told_positive result ≡ positive_of self rng }
    {
        let mut at = rng;
        let mut tries: u32 = 0;
        let value = loop {
            if tries >= 8 {
                break None;
            }
            let drawn = self.sample(at);
            at = drawn.rng;
            if 0.0 < drawn.value {
                break Some(drawn.value);
            }
            tries += 1;
        };
        Drawn { value, rng: at }
    }
}

// The sum of the numbers of descriptions.
use description::{Description, Distribution, Policy};

// Each step can be undone (xorshift64), so that no number drops out of it.
#[derive(Clone, Copy)]
pub(crate) struct Sum(pub u64);

impl Sum {
    // The sum with a number more.
    fn with(self, n: u64) -> Self {
        let a = self.0 ^ n;
        let b = a ^ (a >> 12);
        let c = b ^ (b << 25);
        Sum(c ^ (c >> 27))
    }

    pub(crate) fn described(self, d: Description) -> Self {
        self.with(d.delay)
            .with(d.rate)
            .with(d.loss)
            .limited(d.limit)
            .sized(d.bits)
            .with(d.senders as u64)
            .distributed(d.on)
            .distributed(d.off)
            .governed(d.policy)
            .with(d.seed)
            .with(d.ticks as u64)
    }

    fn limited(self, limit: Option<u64>) -> Self {
        match limit {
            None => self.with(0),
            Some(bits) => self.with(1).with(bits),
        }
    }

    // The packet bits of all 16 places.
    fn sized(self, bits: [u64; 16]) -> Self {
        bits.iter().fold(self, |sum, n| sum.with(*n))
    }

    fn distributed(self, distribution: Distribution) -> Self {
        match distribution {
            Distribution::Always(v) => self.with(0).with(v),
            Distribution::Uniform(min, max) => self.with(1).with(min).with(max),
        }
    }

    fn governed(self, policy: Policy) -> Self {
        match policy {
            Policy::Held(w) => self.with(0).with(w as u64),
            Policy::Grown(first, most) => self.with(1).with(first as u64).with(most as u64),
            Policy::Timed(most, gap) => self.with(2).with(most as u64).with(gap),
        }
    }
}

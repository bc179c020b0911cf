ghost use Rattle.std.specs.Prelude.{◌≡◌};
ghost use Rattle.draws.specs.Generator.{words_of, next_of, all_zero, replaced, from_words, from_seed, child_of};

use crate::splitmix64::SplitMix64;

// A xoshiro256++ generator: its four words.
#[derive(Clone, Copy)]
pub struct Rng {
    s0: u64,
    s1: u64,
    s2: u64,
    s3: u64,
}

// What is drawn, and the generator after it.
#[derive(Clone, Copy)]
pub struct Drawn<T> {
    pub value: T,
    pub rng: Rng,
}

// A child, and its parent after it.
#[derive(Clone, Copy)]
pub struct Child {
    pub child: Rng,
    pub parent: Rng,
}

impl Rng {
    // The generator that is given these words. Four zero words are replaced.
    #[tactic(auto, unfolding(crate::specs::Generator::from_words))]
    pub fn from_words(s0: u64, s1: u64, s2: u64, s3: u64) -> Rng
        ensures { result ≡ from_words s0 s1 s2 s3 }
    {
        let given = Rng { s0, s1, s2, s3 };
        given.replaced()
    }

    // The four words, in order.
    pub fn words(self) -> [u64; 4]
        ensures { result ≡ words_of self }
    {
        [self.s0, self.s1, self.s2, self.s3]
    }

    // Whether all four words are zero.
    #[tactic(auto, unfolding(crate::specs::Generator::all_zero))]
    pub fn all_zero(self) -> bool
        ensures { result ≡ all_zero self }
    {
        self.s0 == 0 && self.s1 == 0 && self.s2 == 0 && self.s3 == 0
    }

    // Itself; in place of four zero words those of seed 0, since from zeros xoshiro256++ gives
    // nothing but zeros.
    #[tactic(auto, unfolding(crate::specs::Generator::replaced))]
    fn replaced(self) -> Rng
        ensures { result ≡ replaced self }
    {
        if self.all_zero() {
            return Rng::from_seed(0);
        }
        self
    }

    // The words are the first four SplitMix64 outputs of the seed, which are never all zero.
    #[tactic(auto, unfolding(crate::specs::Generator::from_seed))]
    pub fn from_seed(seed: u64) -> Rng
        ensures { result ≡ from_seed seed }
    {
        let a = SplitMix64 { x: seed }.next();
        let b = a.state.next();
        let c = b.state.next();
        let d = c.state.next();
        Rng {
            s0: a.output,
            s1: b.output,
            s2: c.output,
            s3: d.output,
        }
    }

    // The child's words are the next four outputs of this generator, which moves on. Four zero
    // words are replaced.
    #[tactic(auto, unfolding(crate::specs::Generator::child_of))]
    pub fn create_child(self) -> Child
        ensures { result ≡ child_of self }
    {
        let a = self.next();
        let b = a.rng.next();
        let c = b.rng.next();
        let d = c.rng.next();
        let drawn = Rng {
            s0: a.value,
            s1: b.value,
            s2: c.value,
            s3: d.value,
        };
        let child = drawn.replaced();
        Child {
            child,
            parent: d.rng,
        }
    }

    #[tactic(auto, unfolding(crate::specs::Generator::output_of, crate::specs::Generator::moved_on))]
    pub fn next(self) -> Drawn<u64>
        ensures { result ≡ next_of self }
    {
        let s0 = self.s0;
        let s1 = self.s1;
        let sum = s0.wrapping_add(self.s3);
        let value = sum.rotate_left(23).wrapping_add(s0);
        let t2 = self.s2 ^ s0;
        let t3 = self.s3 ^ s1;
        let rng = Rng {
            s0: s0 ^ t3,
            s1: s1 ^ t2,
            s2: t2 ^ (s1 << 17),
            s3: t3.rotate_left(45),
        };
        Drawn { value, rng }
    }
}

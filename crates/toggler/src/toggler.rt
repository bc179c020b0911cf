ghost use Rattle.std.specs.Prelude.{◌≡◌, cond};
ghost use Rattle.toggler.specs.Toggler.{new_toggler, toggle_of};

use draws::{ContinuousDistribution, Rng};
use quantities::{Time, TimeSpan};

// Whether its sender is on, when that changes next, and its generator.
#[derive(Clone, Copy)]
pub struct Toggler {
    pub enabled: bool,
    pub next_toggle: Time,
    pub rng: Rng,
}

// What a toggle does: the number (0 or 8), and the toggler after it, or as it was.
#[derive(Clone, Copy)]
pub struct Toggled {
    pub number: u32,
    pub toggler: Toggler,
}

// A new toggler: off, with its first toggle drawn. 8 where the draw is spent.
#[tactic(auto, unfolding(crate::specs::Toggler::new_toggler))]
pub fn create(rng: Rng, off: ContinuousDistribution) -> Toggled
    ensures { result ≡ new_toggler rng off }
{
    let toggler = Toggler {
        enabled: false,
        next_toggle: Time::SIM_START,
        rng,
    };
    let drawn = off.sample_positive(rng);
    let Some(span) = drawn.value else {
        return Toggled { number: 8, toggler };
    };
    Toggled {
        number: 0,
        toggler: Toggler {
            next_toggle: Time::from_sim_start(TimeSpan(span)),
            rng: drawn.rng,
            ..toggler
        },
    }
}

impl Toggler {
    // Changes the state, and draws the length of the state entered.
    #[tactic(auto, unfolding(crate::specs::Toggler::toggle_of))]
    pub fn toggle(
        self,
        clock: Time,
        on: ContinuousDistribution,
        off: ContinuousDistribution,
    ) -> Toggled
        ensures { result ≡ toggle_of self clock on off }
    {
        let enabled = !self.enabled;
        let length = if enabled { on } else { off };
        let drawn = length.sample_positive(self.rng);
        let Some(span) = drawn.value else {
            return Toggled {
                number: 8,
                toggler: self,
            };
        };
        Toggled {
            number: 0,
            toggler: Toggler {
                enabled,
                next_toggle: clock + TimeSpan(span),
                rng: drawn.rng,
            },
        }
    }
}

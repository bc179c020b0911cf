ghost use Rattle.std.specs.Prelude.{◌≡◌, ◌≤◌};
ghost use Rattle.clauses.specs.Tests.{queued_test, place_test, empty_test, part_time, next_test, places_test, queue_test};

use quantities::Time;
use ranges::frame::time_held;
use sender::LossySender;
use toggler::{Queued, Toggler};

// What the parts' own next times are read from: how many senders there are, whether there is a return
// line, the links' own next times, the clock, the senders and the togglers.
#[derive(Clone, Copy)]
struct Parts<'a> {
    n: u32,
    back: bool,
    links: [Queued; 2],
    clock: Time,
    senders: &'a [LossySender; 16],
    togglers: &'a [Toggler; 16],
}

impl Parts<'_> {
    // The own next time of part k.
    //
    // A helper, and no entry point, as are the others here with a `requires`: the caller shows that there
    // are at most 16 senders. A state made by hand may have any number, so no type has this.
    #[tactic(auto, unfolding(crate::specs::Tests::part_time, crate::specs::Tests::role_time, remy::specs::State::role_of))]
    fn part_time(&self, k: usize) -> Option<Time>
        requires { self.now.n ≤ 16 }
        ensures { result ≡ part_time self.now.n self.now.back self.now.links self.now.clock self.now.senders.now self.now.togglers.now k }
    {
        if k == 0 {
            return self.links[0].time;
        }
        let i = (k - 1) / 2;
        if i < self.n as usize {
            if k % 2 == 1 {
                self.senders[i].next_tick(self.clock)
            } else {
                Some(self.togglers[i].next_toggle)
            }
        } else if self.back && i == self.n as usize && k % 2 == 0 {
            self.links[1].time
        } else {
            None
        }
    }
}

// Whether a queued time is at most 2^41 and not below the clock, or nothing is queued.
#[tactic(auto, using(quantities::proofs::Comparisons::no_later), unfolding(crate::specs::Tests::queued_test))]
fn queued_fit(clock: Time, queued: Option<Time>) -> bool
    ensures { result ≡ queued_test clock queued }
{
    queued.is_none_or(|t| time_held(t) && clock <= t)
}

// Whether what is queued at place k is fit, where `own` is the part's own next time.
#[tactic(auto, unfolding(crate::specs::Tests::place_test))]
fn place_fit(
    next: Option<usize>,
    clock: Time,
    k: usize,
    queued: Option<Time>,
    own: Option<Time>,
) -> bool
    ensures { result ≡ place_test next clock k queued own }
{
    queued_fit(clock, queued) && (next == Some(k) || queued == own)
}

// Whether nothing is queued.
#[tactic(auto, unfolding(crate::specs::Tests::empty_test))]
fn is_empty(queue: [Queued; 35]) -> bool
    ensures { result ≡ empty_test 35 queue }
{
    (0..35).all(|k| queue[k].time.is_none())
}

// Whether the next part's own next time is the clock, or nothing is queued where no part is next.
#[tactic(auto, unfolding(crate::specs::Tests::next_test))]
fn next_fit(parts: &Parts, queue: [Queued; 35], next: Option<usize>) -> bool
    requires { parts.now.n ≤ 16 }
    ensures { result ≡ next_test parts.now.n parts.now.back parts.now.links parts.now.clock parts.now.senders.now parts.now.togglers.now queue next }
{
    match next {
        None => is_empty(queue),
        Some(k) => Some(parts.clock) == parts.part_time(k),
    }
}

// Whether each place of the queue is fit.
#[tactic(auto, unfolding(crate::specs::Tests::places_test))]
fn places_fit(parts: &Parts, queue: [Queued; 35], next: Option<usize>) -> bool
    requires { parts.now.n ≤ 16 }
    ensures { result ≡ places_test parts.now.n parts.now.back parts.now.links parts.now.clock parts.now.senders.now parts.now.togglers.now 35 queue next }
{
    (0..35).all(|k| place_fit(next, parts.clock, k, queue[k].time, parts.part_time(k)))
}

// Whether the next part and each place of the queue are fit.
//
// A helper for `fitness`, and no entry point: `is_fit` has tested the senders' number.
#[tactic(auto, unfolding(crate::specs::Tests::queue_test))]
pub fn queue_fit(
    n: u32,
    back: bool,
    links: [Queued; 2],
    clock: Time,
    senders: [LossySender; 16],
    togglers: [Toggler; 16],
    queue: [Queued; 35],
    next: Option<usize>,
) -> bool
    requires { n ≤ 16 }
    ensures { result ≡ queue_test n back links clock senders togglers queue next }
{
    let parts = Parts {
        n,
        back,
        links,
        clock,
        senders: &senders,
        togglers: &togglers,
    };
    next_fit(&parts, queue, next) && places_fit(&parts, queue, next)
}

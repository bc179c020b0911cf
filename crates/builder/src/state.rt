ghost use Rattle.std.specs.Prelude.{◌≡◌};
ghost use Rattle.remy.specs.State.{with_head};
ghost use Rattle.remy.specs.Build.{unqueued, empty_simulation};
ghost use Rattle.parts.specs.Parts.{told_parts};

use draws::Rng;
use meters::AverageFlowMeter;
use parts::{
    Made, blank_transit, blank_waiting, blank_words, empty_network, empty_words, new_line, no_parts,
};
use quantities::Time;
use remy::{Head, RemyNetwork, Simulation};
use toggler::Queued;

// A simulation in which nothing was sent, waits, moves, was counted or is queued, with the generators
// of its two links and the parts made.
pub(crate) fn fresh(
    network: RemyNetwork,
    head: Head,
    link: Rng,
    back: Rng,
    made: Made,
) -> Simulation
    ensures { result ≡ with_head (unqueued network link back (told_parts made)) head }
{
    // Variables: the proof does not close where a field's array goes straight into the literal.
    let senders = made.senders;
    let togglers = made.togglers;
    Simulation {
        network,
        head,
        lines: [new_line(link), new_line(back)],
        waiting: [blank_waiting(); 1024],
        on_line: [blank_transit(); 1024],
        senders,
        togglers,
        meters: [AverageFlowMeter::new_disabled(); 16],
        queue: [Queued { time: None }; 35],
    }
}

// The empty simulation: the one that the empty network and seed 0 build. Inlined for speed: a caller that reads little of
// it makes no more than that.
#[inline(always)]
pub fn empty_simulation() -> Simulation
    ensures { result ≡ empty_simulation }
{
    let head = Head {
        clock: Time::MAX,
        next: None,
    };
    let words = blank_words();
    fresh(empty_network(), head, empty_words(), words, no_parts(words))
}

// The build (document 01, "Tick and history" and the rows 1 to 8 of "Stops"; document 02, K4): a network
// and a seed give a simulation with its first part picked, or the number of what is refused.
#![tactic(auto)]

ghost use Rattle.std.specs.Prelude.{◌≡◌, ◌≤◌};
ghost use Rattle.remy.specs.Build.{not_built, build_from, build_of};
ghost use Rattle.parts.specs.Parts.{told_parts};

mod queue;
mod state;

use crate::queue::{pick_next, queue_all};
use crate::state::fresh;
use draws::Rng;
use parts::{Made, back_words, make};
use quantities::Time;
use ranges::network_stop;
use remy::{Built, Head, RemyNetwork};
pub use state::empty_simulation;

// A refused build: the number, and the empty simulation.
fn refuse(number: u32) -> Built
    ensures { result ≡ not_built number }
{
    Built {
        number,
        simulation: empty_simulation(),
    }
}

// The build of a network with its parts made: the second link's generator is made of the root after
// them, each part is queued, and the first is picked.
//
// A helper: `build` has tested the senders' number, and that no draw was spent.
fn finish(network: RemyNetwork, link: Rng, made: Made) -> Built
    requires { (network.senders ≤ 16) × (made.number ≡ 0) }
    ensures { result ≡ build_from network link (told_parts made) }
{
    let head = Head {
        clock: Time::SIM_START,
        next: None,
    };
    let back = back_words(network, made.root);
    let bare = fresh(network, head, link, back, made);
    Built {
        number: 0,
        simulation: pick_next(queue_all(bare)),
    }
}

// The simulation that the network and the seed give, with its first part picked, and the number 0;
// or the number of what is refused, 1 to 8 or 20, and the empty simulation.
#[tactic(auto, using(crate::proofs::Building::refused, crate::proofs::Building::few, crate::proofs::Building::finished))]
pub fn build(network: RemyNetwork, seed: u64) -> Built
    ensures { result ≡ build_of network seed }
{
    let number = network_stop(network);
    if number != 0 {
        return refuse(number);
    }
    let c = Rng::from_seed(seed).create_child();
    let made = make(network.senders as usize, c.parent, network.off);
    if made.number != 0 {
        return refuse(made.number);
    }
    finish(network, c.child, made)
}

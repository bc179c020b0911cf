// What a build makes before it puts the state together: a line, the senders and togglers, the generator
// of a return line, what places hold where nothing is; and what the empty simulation is made of.
//
// All functions here are helpers for the crate `builder`, and no entry points.
#![tactic(auto)]

ghost use Rattle.std.specs.Prelude.{◌≡◌, ◌≤◌};
ghost use Rattle.remy.specs.Build.{new_line, new_sender, blank_packet, blank_waiting, blank_transit, blank_toggler, blank_words, no_parts, populate, back_words, empty_network, empty_words};
ghost use Rattle.parts.specs.Parts.{told_parts};

use draws::{ContinuousDistribution, Rng};
use link::{Line, LineValues, Packet, Ring, Transit, Waiting};
use quantities::{Information, Time};
use remy::RemyNetwork;
use sender::{LossySender, Policy, SenderState};
use toggler::{Toggler, create};

// The senders and togglers of a build, the root after them, and the number: 8 where a first toggle's
// draw was spent, with those made so far. Two arrays and no array of pairs: the specs cite each array,
// and a tick stores only the element that changed.
#[derive(Clone, Copy)]
pub struct Made {
    pub number: u32,
    pub root: Rng,
    pub senders: [LossySender; 16],
    pub togglers: [Toggler; 16],
}

// A link on which nothing waits or moves, and that may start at any time.
pub fn new_line(rng: Rng) -> Line
    ensures { result ≡ new_line rng }
{
    let empty = Ring { start: 0, count: 0 };
    Line {
        earliest_transmit: Time::MIN,
        buffer_contains: Information(0),
        waiting: empty,
        on_line: empty,
        rng,
    }
}

// A sender that is off and has sent nothing.
pub fn new_sender(rng: Rng) -> LossySender
    ensures { result ≡ new_sender rng }
{
    LossySender {
        packets_sent: 0,
        state: SenderState::WaitingForEnable,
        rng,
    }
}

// The generator of seed 0, for places where no part stands.
pub fn blank_words() -> Rng
    ensures { result ≡ blank_words }
{
    Rng::from_seed(0)
}

// The packet of a place that holds none.
fn blank_packet() -> Packet
    ensures { result ≡ blank_packet }
{
    Packet {
        sender: 0,
        seq: 0,
        sent_time: Time::SIM_START,
    }
}

// What a place holds where no packet waits.
pub fn blank_waiting() -> Waiting
    ensures { result ≡ blank_waiting }
{
    Waiting {
        packet: blank_packet(),
        bits: Information(0),
    }
}

// What a place holds where no packet is on the line.
pub fn blank_transit() -> Transit
    ensures { result ≡ blank_transit }
{
    Transit {
        packet: blank_packet(),
        due: Time::SIM_START,
    }
}

// What a place holds where there is no toggler.
pub fn blank_toggler() -> Toggler
    ensures { result ≡ blank_toggler }
{
    Toggler {
        enabled: false,
        next_toggle: Time::SIM_START,
        rng: blank_words(),
    }
}

// The places of 16 senders and togglers before any is made of the root.
pub fn no_parts(root: Rng) -> Made
    ensures { told_parts result ≡ no_parts root }
{
    Made {
        number: 0,
        root,
        senders: [new_sender(blank_words()); 16],
        togglers: [blank_toggler(); 16],
    }
}

// The sender and the toggler of each of n indices: two children of the root, in this order, the
// toggler with its first toggle drawn from the off distribution.
//
// A helper for `builder`, and no entry point: `build` has tested the senders' number.
pub fn make(n: usize, root: Rng, off: ContinuousDistribution) -> Made
    requires { n ≤ 16 }
    ensures { told_parts result ≡ populate n 0 off (no_parts root) }
{
    let mut made = no_parts(root);
    for i in 0..n {
        let c = made.root.create_child();
        let d = c.parent.create_child();
        let first = create(d.child, off);
        made.number = first.number;
        made.root = d.parent;
        made.senders[i] = new_sender(c.child);
        made.togglers[i] = first.toggler;
        if made.number != 0 {
            return made;
        }
    }
    made
}

// The generator of the second link: the next child of the root, which is its last, where there is a
// return line.
#[tactic(auto, unfolding(remy::specs::Build::back_words))]
pub fn back_words(network: RemyNetwork, root: Rng) -> Rng
    ensures { result ≡ back_words network root }
{
    match network.back {
        None => blank_words(),
        Some(_) => root.create_child().child,
    }
}

// Delay 0, rate 1, loss 0, no limit, no return line, packets of 1 bit, no senders, on and off always 1,
// windows held at 1.
pub fn empty_network() -> RemyNetwork
    ensures { result ≡ empty_network }
{
    RemyNetwork {
        line: LineValues {
            delay: 0.0,
            rate: 1.0,
            loss: 0.0,
            limit: None,
        },
        back: None,
        bits: [1; 16],
        senders: 0,
        on: ContinuousDistribution::Always(1.0),
        off: ContinuousDistribution::Always(1.0),
        policy: Policy::Held(1),
    }
}

// The generator of the empty simulation's link: the first child of seed 0.
pub fn empty_words() -> Rng
    ensures { result ≡ empty_words }
{
    Rng::from_words(
        5987356902031041503,
        7051070477665621255,
        6633766593972829180,
        211316841551650330,
    )
}

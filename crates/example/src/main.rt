// How a program calls the simulator: it builds document 01's worked example, ticks it once, runs six
// more ticks, reads the flow of sender 0 and prints it. `stdout` beside src/ is what it has to print.
// Structs go in and come out by value: a tick takes a simulation and answers the one after it.
#![tactic(auto)]

ghost use Rattle.std.specs.Prelude.{◌≡◌};
ghost use Rattle.remy.specs.Build.{build_of};
ghost use Rattle.remy.specs.Run.{run_of};
ghost use Rattle.reading.specs.Flow.{told_flow, flow_of};

use draws::ContinuousDistribution;
use flows::{FlowProperties, NoPacketsAcked};
use link::LineValues;
use meters::FlowReadError;
use quantities::float::to_bits;
use remy::RemyNetwork;
use sender::Policy;
use std::io;

fn main(rt: HostRuntime) -> io::Result<()> {
    match flow(network(), 1) {
        Some(read) => print(&rt, read),
        None => println!(rt; "no sender"),
    }
}

// A line of 8 bit/s with a delay of 1 s, where 8 bits may wait; one sender with packets of 8 bits,
// off for 1 s, then on for 100 s, that may have 3 packets under way.
fn network() -> RemyNetwork {
    let line = LineValues {
        delay: 1.0,
        rate: 8.0,
        loss: 0.0,
        limit: Some(8),
    };
    RemyNetwork {
        line,
        back: None,
        bits: [8; 16],
        senders: 1,
        on: ContinuousDistribution::Always(100.0),
        off: ContinuousDistribution::Always(1.0),
        policy: Policy::Held(3),
    }
}

// The flow of sender 0 after seven ticks. The contract says it by the definitions of build, run and
// flow, for every network and seed; it follows from the contracts of the four calls. `tick` says that it is a
// run of 1, and `run` that six ticks of what one tick gave are seven ticks: so a run can be made in
// parts. What build, tick and run answer has a number too: 0, or why it refused or stopped. A refused build
// gives a simulation without senders, so the read then answers None: there is no sender.
fn flow(network: RemyNetwork, seed: u64) -> Option<Result<FlowProperties, FlowReadError>>
    ensures { told_flow result ≡ flow_of (run_of 7 (build_of network seed).simulation).simulation 0 }
{
    let built = builder::build(network, seed);
    let ticked = simulation::tick(built.simulation);
    let ran = simulation::run(ticked.simulation, 6);
    reading::average_properties(ran.simulation, 0)
}

// The rate and the round-trip time, where there are any: 4 bit/s and 1 s here. A double is printed by its
// 64 bits, as 16 hexadecimal digits.
fn print(rt: &impl Print, read: Result<FlowProperties, FlowReadError>) -> io::Result<()> {
    match read {
        Ok(flow) => {
            println!(rt; "rate={:016x}", to_bits(flow.throughput.0))?;
            match flow.rtt {
                Ok(span) => println!(rt; "rtt={:016x}", to_bits(span.0)),
                Err(NoPacketsAcked) => println!(rt; "no packet counted"),
            }
        }
        Err(FlowReadError::NeverActive) => println!(rt; "never on"),
        Err(FlowReadError::Refused) => println!(rt; "refused"),
    }
}

// What is read of a simulation: its time, which is the clock, and the flow of a sender.
#![tactic(auto)]

ghost use Rattle.std.specs.Prelude.{◌≡◌};
ghost use Rattle.reading.specs.Flow.{told_flow, flow_of};

use flows::FlowProperties;
use meters::FlowReadError;
use quantities::Time;
use remy::Simulation;

// The clock.
pub fn time(simulation: Simulation) -> Time
    ensures { result ≡ simulation.head.clock }
{
    simulation.head.clock
}

// The flow of sender i, read at the clock, or why it is not read; none where no sender i is there.
#[tactic(auto, unfolding(crate::specs::Flow::flow_of))]
pub fn average_properties(
    simulation: Simulation,
    i: u32,
) -> Option<Result<FlowProperties, FlowReadError>>
    ensures { told_flow result ≡ flow_of simulation i }
{
    if i >= simulation.network.senders || i >= 16 {
        return None;
    }
    let meter = simulation.meters[i as usize];
    Some(meter.average_properties(simulation.head.clock))
}

ghost use Rattle.std.specs.Prelude.{◌≡◌};
ghost use Rattle.remy.specs.Fit.{fit};

use clauses::counts::under_way;
use clauses::packets::packets_fit;
use clauses::queue::queue_fit;
use clauses::senders::senders_fit;
use ranges::frame::frame_fit;
use ranges::lines::{has_back, line_count};
use remy::Simulation;

// Whether a simulation is fit: no clause of document 01's "Unfit" holds of it.
pub fn is_fit(simulation: Simulation) -> bool
    ensures { result ≡ fit simulation }
{
    let network = simulation.network;
    let lines = simulation.lines;
    if !frame_fit(network, simulation.head, lines) {
        return false;
    }
    let n = network.senders;
    let count = line_count(network.back);
    let clock = simulation.head.clock;
    let waiting = simulation.waiting;
    let on_line = simulation.on_line;
    let senders = simulation.senders;
    if !packets_fit(
        senders,
        network.bits,
        n,
        clock,
        waiting,
        on_line,
        lines,
        count,
    ) {
        return false;
    }
    let found = under_way(waiting, on_line, lines, clock, count);
    senders_fit(
        network.policy,
        network.bits,
        clock,
        found.counts,
        n,
        senders,
        simulation.togglers,
        simulation.meters,
    ) && queue_fit(
        n,
        has_back(network.back),
        found.links,
        clock,
        senders,
        simulation.togglers,
        simulation.queue,
        simulation.head.next,
    )
}

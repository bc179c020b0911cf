ghost use Rattle.std.specs.Prelude.{◌≡◌};
ghost use Rattle.steady.specs.Steady.{steady};

use crate::whole::is_fit;
use clauses::packets::all_due_soon;
use ranges::lines::line_count;
use remy::Simulation;

// Whether a simulation is steady: fit, and no packet on a line is due later than the clock and that
// line's delay. Every tick keeps this.
pub fn is_steady(simulation: Simulation) -> bool
    ensures { result ≡ steady simulation }
{
    let network = simulation.network;
    is_fit(simulation)
        && all_due_soon(
            network.line,
            network.back,
            simulation.head.clock,
            simulation.on_line,
            simulation.lines,
            line_count(network.back),
        )
}

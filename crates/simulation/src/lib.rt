// The simulation in code: tick, run, and a run with its records, equal to their definitions in remy. Each
// also says demand 3, the account of packets, for every state that calls reach from a build; which
// numbers it can give; that the clock cannot go back, in any state that calls reach from the one given;
// and that runs join: wherever the state given is what m ticks of another gave, n ticks of it end as
// m + n of the other do. `TickNumber`, `NeverBack` and `JoinsOn` are public promises, so each stands at its
// function.
#![tactic(auto)]

ghost use Rattle.std.specs.Prelude.{◌≡◌};
ghost use Rattle.remy.specs.Tick.{tick_of};
ghost use Rattle.remy.specs.Run.{run_of, TickNumber, batch_of, records_of, ran_of};
ghost use Rattle.remy.specs.Joins.{JoinsOn, as_run, TickByTick};
ghost use Rattle.steady.specs.Clock.{NeverBack};
ghost use Rattle.simulation.specs.Reached.{TickAccount, RunAccount, RecordsAccount};

use remy::{Ran, Recorded, Simulation, Ticked};

// One tick: 9, idle, 10, or the turn of the next part. It is a run of 1. The record of a tick that moved
// is the loop's first; where none did, that place has the empty record.
pub fn tick(simulation: Simulation) -> Ticked
    ensures { (result ≡ tick_of simulation) × TickAccount simulation result × TickNumber result.number × NeverBack simulation × (run_of 1 simulation ≡ as_run result) × JoinsOn 1 simulation (as_run result) }
{
    let one = advance::advance(simulation, 1);
    Ticked {
        number: one.number,
        moved: one.done == 1,
        note: one.records[0].note,
        simulation: one.simulation,
    }
}

// Ticks until n are done, idle or refused. A run goes on with a run of the state that it returned.
pub fn run(simulation: Simulation, n: u32) -> Ran
    ensures { (result ≡ run_of n simulation) × RunAccount simulation result × TickNumber result.number × NeverBack simulation × TickByTick n simulation result × JoinsOn n simulation result }
{
    let ran = advance::advance(simulation, n);
    Ran {
        done: ran.done,
        number: ran.number,
        simulation: ran.simulation,
    }
}

// A run of n ticks, 256 at most, with their records: one for each tick that was done, from the first
// place on, each with the bits that wait for the first line after its tick. The places after them have
// the empty record and no bits.
pub fn records(simulation: Simulation, n: u32) -> Recorded
    ensures { (result ≡ records_of n simulation) × RecordsAccount simulation result × TickNumber result.number × NeverBack simulation × TickByTick (batch_of n) simulation (ran_of result) × JoinsOn (batch_of n) simulation (ran_of result) }
{
    let most = n.min(256);
    advance::advance(simulation, most)
}

// The report of a text: what is left to print of it.
ghost use Rattle.std.specs.Prelude.{◌≡◌};
ghost use Rattle.report.specs.Report.{first_stage, begun_of, report_of, ForText};

use crate::network::network_of;
use description::Description;
use remy::Simulation;

// What is printed next: a refusal, the records of so many ticks, the stop line with the last number,
// the flows from a sender on, or nothing more.
#[derive(Clone, Copy)]
pub enum Stage {
    Refused(u32),
    Ticks(u32),
    Stop(u32),
    Flows(u32),
    Done,
}

// What is left to print, and the simulation that it is read from.
#[derive(Clone, Copy)]
pub struct Report {
    pub stage: Stage,
    pub simulation: Simulation,
}

// What is printed first: the number of a build that is refused, else the records of the ticks.
fn first(number: u32, ticks: u32) -> Stage
    ensures { result ≡ first_stage number ticks }
{
    match number {
        0 => Stage::Ticks(ticks),
        _ => Stage::Refused(number),
    }
}

// The report of a description.
#[tactic(auto, unfolding(crate::specs::Report::begun_of))]
fn begun(description: Description) -> Report
    ensures { result ≡ begun_of description }
{
    let built = builder::build(network_of(description), description.seed);
    Report {
        stage: first(built.number, description.ticks),
        simulation: built.simulation,
    }
}

// The report of a text. One that is no description has only its number.
pub fn report_of(text: &[u8]) -> Report
    ensures { ForText text.now (λ d. result ≡ report_of d) }
{
    match description::read(text) {
        Ok(description) => begun(description),
        Err(malformed) => Report {
            stage: Stage::Refused(malformed.number()),
            simulation: builder::empty_simulation(),
        },
    }
}

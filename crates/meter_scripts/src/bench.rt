// What the commands work on.
ghost use Rattle.std.specs.Prelude.{◌≡◌, ◌<◌, take, MatchOption};
ghost use Rattle.flows.specs.Average.{average_of, told_mean};

use crate::answer::{FlowAnswer, MeterAnswer};
use crate::command::Command;
use flows::{FlowProperties, FlowSum, NoMean, NoPacketsAcked};
use lent::{average, record_lending, switch_lending};
use meters::{AverageFlowMeter, ChangeRefused};
use quantities::InformationRate;
use std::io;

// The meter, the sums and the list. The list has the first 64 flows; a count of 65 is more than these. The kit's
// `ArrayVec` is no plainer: it asks for a `Default` of a flow, which has none.
#[derive(Clone, Copy)]
pub(crate) struct Bench {
    meter: AverageFlowMeter,
    sum: Result<FlowSum, NoMean>,
    list: [FlowProperties; 64],
    count: usize,
}

impl Bench {
    pub(crate) fn new() -> Self {
        let flow = FlowProperties {
            throughput: InformationRate(0.0),
            rtt: Err(NoPacketsAcked),
        };
        Bench {
            meter: AverageFlowMeter::new_disabled(),
            sum: Ok(FlowSum::start()),
            list: [flow; 64],
            count: 0,
        }
    }

    // Carries out a command, and prints its answer, if it has one.
    pub(crate) fn obey(&mut self, rt: &impl Print, command: Command) -> io::Result<()> {
        let meter = self.meter;
        // The kinds are the letters of a script, each with values of its own.
        match command {
            Command::Meter(new) => {
                self.meter = new;
                Ok(())
            }
            Command::Switch(on, time) => {
                let letter = if on { "E" } else { "D" };
                let lent = switch_lending(meter, on, time);
                self.told(rt, letter, lent, meter.switch(on, time))
            }
            Command::Record(packet, time) => {
                let lent = record_lending(meter, packet, time);
                self.told(rt, "R", lent, meter.packet_received(packet, time))
            }
            Command::Read(time) => {
                println!(rt; "Q {}", FlowAnswer::from(meter.average_properties(time)))
            }
            Command::Flows(flow, count) => {
                for _ in 0..count {
                    self.add(flow);
                }
                Ok(())
            }
            Command::Mean => {
                self.mean(rt)?;
                self.sum = Ok(FlowSum::start());
                self.count = 0;
                Ok(())
            }
        }
    }

    fn add(&mut self, flow: FlowProperties) {
        self.sum = self.sum.and_then(|sum| sum.added(flow));
        match self.list.get_mut(self.count) {
            Some(place) => {
                *place = flow;
                self.count += 1;
            }
            None => self.count = 65,
        }
    }

    // Prints the answer of a switch or a record over a lent meter, and takes the meter after it.
    fn told(
        &mut self,
        rt: &impl Print,
        letter: &str,
        lent: Result<AverageFlowMeter, ChangeRefused>,
        by_value: Result<AverageFlowMeter, ChangeRefused>,
    ) -> io::Result<()> {
        let before = self.meter;
        self.meter = lent.unwrap_or(before);
        let answer = MeterAnswer::of(before, lent);
        println!(rt; "{letter} {answer}")?;
        compared(rt, answer == MeterAnswer::of(before, by_value))
    }

    fn mean(&self, rt: &impl Print) -> io::Result<()> {
        let by_value = FlowAnswer::from(self.sum.and_then(FlowSum::mean));
        let lent = self.average_first().map_or(by_value, FlowAnswer::from);
        println!(rt; "M {lent}")?;
        compared(rt, lent == by_value)
    }

    // The mean of the list, which is lent, where it has at most 64 flows.
    fn average_first(&self) -> Option<Result<FlowProperties, NoMean>>
        ensures { MatchOption result (64 < self.now.count) (λ mean. told_mean mean ≡ average_of (take self.now.count self.now.list)) }
    {
        Some(average(self.list.get(..self.count)?))
    }
}

fn compared(rt: &impl Print, same: bool) -> io::Result<()> {
    if same {
        return Ok(());
    }
    println!(rt; "differs")
}

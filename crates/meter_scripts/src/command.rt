// The commands of a script.
use flows::{FlowProperties, NoPacketsAcked};
use meters::{AverageFlowMeter, Reception};
use quantities::float::from_bits;
use quantities::{Information, InformationRate, Time, TimeSpan};
use script::Line;

#[derive(Clone, Copy)]
pub(crate) enum Command {
    // N, H
    Meter(AverageFlowMeter),
    // E, D: a switch on, or off
    Switch(bool, Time),
    // R
    Record(Reception, Time),
    // Q
    Read(Time),
    // F, G: so many flows more
    Flows(FlowProperties, u64),
    // M
    Mean,
}

impl Command {
    // The command of a line, if it has one.
    pub(crate) fn of(line: Line) -> Option<Self> {
        Some(match line.kind() {
            b'N' => Command::Meter(AverageFlowMeter::new_disabled()),
            b'H' => Command::Meter(meter(line)),
            b'E' => Command::Switch(true, line.time(0)),
            b'D' => Command::Switch(false, line.time(0)),
            b'R' => Command::Record(reception(line), line.time(2)),
            b'Q' => Command::Read(line.time(0)),
            b'F' => Command::Flows(flow(line), 1),
            b'G' => Command::Flows(flow(line), line.number(2)),
            b'M' => Command::Mean,
            _ => return None,
        })
    }
}

// Also in `held`, from its own fields: `script`, on which both depend, depends on no meters.
fn meter(line: Line) -> AverageFlowMeter {
    AverageFlowMeter {
        total_time: TimeSpan(line.double(0)),
        current_start: line.time_if_any(1),
        total: Information(line.number(2)),
        records: line.narrow(3),
        rtt_sum: TimeSpan(line.double(4)),
    }
}

fn reception(line: Line) -> Reception {
    Reception {
        data: Information(line.number(0)),
        rtt: TimeSpan(line.double(1)),
    }
}

fn flow(line: Line) -> FlowProperties {
    FlowProperties {
        throughput: InformationRate(line.double(0)),
        rtt: rtt(line, 1),
    }
}

fn rtt(line: Line, k: usize) -> Result<TimeSpan, NoPacketsAcked> {
    line.field(k)
        .map(|bits| TimeSpan(from_bits(bits)))
        .ok_or(NoPacketsAcked)
}

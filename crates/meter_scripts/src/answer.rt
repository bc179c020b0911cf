// What is printed of a meter and of a flow: each number by its bits, so that two answers are equal where
// they are printed alike.
use flows::{FlowProperties, NoMean, NoPacketsAcked};
use meters::{AverageFlowMeter, ChangeRefused, FlowReadError};
use quantities::float::to_bits;
use quantities::{Time, TimeSpan};
use std::fmt;

// The number, and the meter after the call.
#[derive(Clone, Copy, PartialEq, Eq)]
pub(crate) struct MeterAnswer {
    number: u32,
    total_time: u64,
    start: Field,
    total: u64,
    records: u32,
    rtt_sum: u64,
}

// The rate and the RTT, or the number of the refusal.
#[derive(Clone, Copy, PartialEq, Eq)]
pub(crate) enum FlowAnswer {
    Flow(u64, Field),
    Refused(u32),
}

// A number that may be absent.
#[derive(Clone, Copy, PartialEq, Eq)]
pub(crate) struct Field(Option<u64>);

impl fmt::Display for Field {
    fn fmt<W: fmt::Write>(&self, f: &mut fmt::Formatter<W>) -> fmt::Result {
        match self.0 {
            None => f.write_str("----------------"),
            Some(bits) => write!(f, "{bits:016x}"),
        }
    }
}

impl fmt::Display for MeterAnswer {
    fn fmt<W: fmt::Write>(&self, f: &mut fmt::Formatter<W>) -> fmt::Result {
        write!(
            f,
            "{} {:016x} {} {:016x} {:016x} {:016x}",
            self.number, self.total_time, self.start, self.total, self.records, self.rtt_sum
        )
    }
}

impl fmt::Display for FlowAnswer {
    fn fmt<W: fmt::Write>(&self, f: &mut fmt::Formatter<W>) -> fmt::Result {
        match *self {
            FlowAnswer::Flow(rate, rtt) => write!(f, "0 {rate:016x} {rtt}"),
            FlowAnswer::Refused(number) => write!(f, "{number}"),
        }
    }
}

impl MeterAnswer {
    // Of a change of a meter: where it is refused, the meter is as it was.
    pub(crate) fn of(
        before: AverageFlowMeter,
        change: Result<AverageFlowMeter, ChangeRefused>,
    ) -> Self {
        let (number, meter) = match change {
            Ok(changed) => (0, changed),
            Err(ChangeRefused) => (18, before),
        };
        MeterAnswer {
            number,
            total_time: to_bits(meter.total_time.0),
            start: meter.current_start.into(),
            total: meter.total.0,
            records: meter.records,
            rtt_sum: to_bits(meter.rtt_sum.0),
        }
    }
}

impl From<FlowProperties> for FlowAnswer {
    fn from(flow: FlowProperties) -> Self {
        FlowAnswer::Flow(to_bits(flow.throughput.0), flow.rtt.into())
    }
}

impl From<FlowReadError> for FlowAnswer {
    fn from(error: FlowReadError) -> Self {
        FlowAnswer::Refused(match error {
            FlowReadError::NeverActive => 16,
            FlowReadError::Refused => 18,
        })
    }
}

impl From<NoMean> for FlowAnswer {
    fn from(_error: NoMean) -> Self {
        FlowAnswer::Refused(17)
    }
}

// What a read or a mean gives.
impl<E: Into<FlowAnswer>> From<Result<FlowProperties, E>> for FlowAnswer {
    fn from(answer: Result<FlowProperties, E>) -> Self {
        match answer {
            Ok(flow) => flow.into(),
            Err(error) => error.into(),
        }
    }
}

impl From<Option<Time>> for Field {
    fn from(time: Option<Time>) -> Self {
        Field(time.map(|t| to_bits(t.0.0)))
    }
}

impl From<Result<TimeSpan, NoPacketsAcked>> for Field {
    fn from(rtt: Result<TimeSpan, NoPacketsAcked>) -> Self {
        Field(rtt.ok().map(|span| to_bits(span.0)))
    }
}

ghost use Rattle.std.specs.Prelude.{◌≡◌};
ghost use Rattle.meters.specs.Meter.{new_meter, start_fit, meter_fit, ready, enabled_time, switched_of, received_of, told_change, read_of, told_read};

use flows::FlowProperties;
use flows::sums::{average_rtt, summed};
use quantities::float::in_range;
use quantities::{Information, Time, TimeSpan};

// What a sender's flow did so far: how long it was enabled before it was last switched off, since
// when it is on, the bits counted, how many packets were counted, and the sum of their round-trip
// times.
#[derive(Clone, Copy)]
pub struct AverageFlowMeter {
    pub total_time: TimeSpan,
    pub current_start: Option<Time>,
    pub total: Information,
    pub records: u32,
    pub rtt_sum: TimeSpan,
}

// A packet that was received: its bits, and its round-trip time.
#[derive(Clone, Copy)]
pub struct Reception {
    pub data: Information,
    pub rtt: TimeSpan,
}

// A change that the meter refuses (18), and is as it was.
#[derive(Clone, Copy, PartialEq, Eq)]
pub struct ChangeRefused;

// Why a flow is not read.
#[derive(Clone, Copy, PartialEq, Eq)]
pub enum FlowReadError {
    // The enabled time is 0 (16).
    NeverActive,
    // The meter or the time is out of range (18).
    Refused,
}

impl AverageFlowMeter {
    // Off, and empty.
    pub fn new_disabled() -> AverageFlowMeter
        ensures { result ≡ new_meter }
    {
        AverageFlowMeter {
            total_time: TimeSpan(0.0),
            current_start: None,
            total: Information(0),
            records: 0,
            rtt_sum: TimeSpan(0.0),
        }
    }

    // Switches the meter on or off at a time; 18 where it has the state asked for. What it gives is what the
    // Rust's `set_enabled` and `set_disabled` give (specs/Switches).
    #[tactic(auto, unfolding(crate::specs::Meter::switched_of))]
    pub fn switch(self, on: bool, time: Time) -> Result<AverageFlowMeter, ChangeRefused>
        ensures { told_change self result ≡ switched_of self on time }
    {
        if !self.ready(time) {
            return Err(ChangeRefused);
        }
        match (self.current_start, on) {
            (None, true) => Ok(AverageFlowMeter {
                current_start: Some(time),
                ..self
            }),
            (Some(begin), false) => Ok(AverageFlowMeter {
                total_time: self.total_time + (time - begin),
                current_start: None,
                ..self
            }),
            _ => Err(ChangeRefused),
        }
    }

    // Counts a packet at a time.
    pub fn packet_received(
        self,
        packet: Reception,
        time: Time,
    ) -> Result<AverageFlowMeter, ChangeRefused>
        ensures { told_change self result ≡ received_of self packet time }
    {
        if !self.ready(time) || !in_range(0.0, 2199023255552.0, packet.rtt.0) {
            return Err(ChangeRefused);
        }
        let bits = packet.data.0;
        if bits < 1 || bits > 16777216 || self.records >= 16777216 {
            return Err(ChangeRefused);
        }
        Ok(AverageFlowMeter {
            total: self.total + packet.data,
            records: self.records + 1,
            rtt_sum: TimeSpan(summed(self.records, self.rtt_sum.0, packet.rtt.0)),
            ..self
        })
    }

    // The flow so far, read at a time.
    #[tactic(auto, unfolding(crate::specs::Meter::read_of))]
    pub fn average_properties(self, current_time: Time) -> Result<FlowProperties, FlowReadError>
        ensures { told_read result ≡ read_of self current_time }
    {
        let enabled = self.enabled_time(current_time);
        if enabled.0 == 0.0 {
            return Err(FlowReadError::NeverActive);
        }
        if !self.ready(current_time) {
            return Err(FlowReadError::Refused);
        }
        Ok(FlowProperties {
            throughput: self.total / enabled,
            rtt: average_rtt(self.records, self.rtt_sum),
        })
    }

    // Whether what the meter holds is in its ranges.
    #[tactic(auto, unfolding(crate::specs::Meter::meter_fit))]
    pub(crate) fn fit(self) -> bool
        ensures { result ≡ meter_fit self }
    {
        self.records <= 16777216
            && self.total.0 <= 16777216 * self.records as u64
            && start_fit(self.current_start)
            && in_range(0.0, TimeSpan::MAX.0, self.total_time.0)
            && in_range(0.0, self.records as f64 * 2199023255552.0, self.rtt_sum.0)
    }

    // Whether the meter is fit, and the time is in its range and not before the meter's start.
    #[tactic(auto, using(quantities::proofs::Comparisons::no_later), unfolding(crate::specs::Meter::ready))]
    fn ready(self, time: Time) -> bool
        ensures { result ≡ ready self time }
    {
        if !self.fit() || !in_range(0.0, 2199023255552.0, time.0.0) {
            return false;
        }
        match self.current_start {
            None => true,
            Some(begin) => begin <= time,
        }
    }

    // The enabled time so far.
    #[tactic(auto, unfolding(crate::specs::Meter::enabled_time))]
    fn enabled_time(self, time: Time) -> TimeSpan
        ensures { result ≡ enabled_time self time }
    {
        match self.current_start {
            None => self.total_time + TimeSpan::ZERO,
            Some(begin) => self.total_time + (time - begin),
        }
    }
}

#[tactic(auto, unfolding(crate::specs::Meter::start_fit))]
fn start_fit(start: Option<Time>) -> bool
    ensures { result ≡ start_fit start }
{
    match start {
        None => true,
        Some(begin) => in_range(0.0, 2199023255552.0, begin.0.0),
    }
}

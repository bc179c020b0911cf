ghost use Rattle.std.specs.Prelude.{◌≡◌};
ghost use Rattle.flows.specs.Sums.{summed_of, average_rtt};
ghost use Rattle.flows.specs.Average.{member_fit, start_of, added_of, mean_of, told_mean};

use crate::flow::{FlowProperties, NoPacketsAcked};
use quantities::float::in_range;
use quantities::{InformationRate, TimeSpan};

// The sums of the flow records taken so far: how many there are, the sum of their throughputs, how many
// of them have a round-trip time, and the sum of those.
#[derive(Clone, Copy)]
pub struct FlowSum {
    pub count: u32,
    pub throughput: InformationRate,
    pub rtt_count: u32,
    pub rtt: TimeSpan,
}

// Flow records that have no mean: none, too many, or one out of range (17).
#[derive(Clone, Copy, PartialEq, Eq)]
pub struct NoMean;

impl FlowSum {
    pub fn start() -> FlowSum
        ensures { result ≡ start_of }
    {
        FlowSum {
            count: 0,
            throughput: InformationRate(0.0),
            rtt_count: 0,
            rtt: TimeSpan(0.0),
        }
    }

    // The sums with one record more.
    #[tactic(auto, unfolding(crate::specs::Average::added_of))]
    pub fn added(self, next: FlowProperties) -> Result<FlowSum, NoMean>
        ensures { result ≡ added_of self next }
    {
        if self.count >= 65536 || self.rtt_count > self.count || !member_fit(next) {
            return Err(NoMean);
        }
        let sums = FlowSum {
            count: self.count + 1,
            throughput: InformationRate(summed(self.count, self.throughput.0, next.throughput.0)),
            ..self
        };
        Ok(match next.rtt {
            Ok(rtt) => FlowSum {
                rtt_count: self.rtt_count + 1,
                rtt: TimeSpan(summed(self.rtt_count, self.rtt.0, rtt.0)),
                ..sums
            },
            Err(NoPacketsAcked) => sums,
        })
    }

    // The mean of the records taken.
    #[tactic(auto, unfolding(crate::specs::Average::mean_of))]
    pub fn mean(self) -> Result<FlowProperties, NoMean>
        ensures { told_mean result ≡ mean_of self }
    {
        if self.count == 0 {
            return Err(NoMean);
        }
        Ok(FlowProperties {
            throughput: self.throughput / self.count,
            rtt: average_rtt(self.rtt_count, self.rtt),
        })
    }
}

// A sum with one value more. The first value stands as it is.
#[tactic(auto, unfolding(crate::specs::Sums::summed_of))]
pub fn summed(count: u32, sum: f64, next: f64) -> f64
    ensures { result ≡ summed_of count sum next }
{
    if count == 0 { next } else { sum + next }
}

// The mean of so many round-trip times with this sum; none of none.
#[tactic(auto, unfolding(crate::specs::Sums::average_rtt))]
pub fn average_rtt(count: u32, sum: TimeSpan) -> Result<TimeSpan, NoPacketsAcked>
    ensures { result ≡ average_rtt count sum }
{
    if count == 0 {
        Err(NoPacketsAcked)
    } else {
        Ok(sum / count)
    }
}

// Whether a record's throughput, and its round-trip time where it has one, are in 0..2^60.
#[tactic(auto, unfolding(crate::specs::Average::member_fit))]
fn member_fit(f: FlowProperties) -> bool
    ensures { result ≡ member_fit f }
{
    if !in_range(0.0, 1152921504606846976.0, f.throughput.0) {
        return false;
    }
    match f.rtt {
        Ok(rtt) => in_range(0.0, 1152921504606846976.0, rtt.0),
        Err(NoPacketsAcked) => true,
    }
}

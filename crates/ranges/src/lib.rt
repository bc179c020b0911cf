// The ranges of a network (document 01, "Stops", rows 1 to 7; document 02, K4, 20) and its lines, and the
// ranges of clock and lines (the paragraph "Unfit").
#![tactic(auto)]

ghost use Rattle.std.specs.Prelude.{cond, ◌≡◌};
ghost use Rattle.remy.specs.Network.{limit_fit, sizes_fit, times_fit, window_fit, policy_fit, back_fit, network_stop};
ghost use Rattle.ranges.specs.Frame.{values_stop};

pub mod frame;
pub mod lines;

use draws::ContinuousDistribution;
use link::LineValues;
use quantities::float::in_range;
use remy::RemyNetwork;
use sender::Policy;

// The number of the first range that a network is not in, 1 to 7 and then 20, or 0.
#[tactic(auto, unfolding(remy::specs::Network::network_stop, crate::specs::Frame::values_stop))]
pub fn network_stop(network: RemyNetwork) -> u32
    ensures { result ≡ network_stop network }
{
    let from_20 = stop_unless(back_fit(network.back), 20, 0);
    let from_7 = stop_unless(policy_fit(network.policy), 7, from_20);
    let times_pass = times_fit(network.on) && times_fit(network.off);
    let from_6 = stop_unless(times_pass, 6, from_7);
    let from_5 = stop_unless(sizes_fit(network.bits, network.senders), 5, from_6);
    values_stop(network.line, from_5)
}

// A number where a test fails, and what the tests after it give where it passes.
fn stop_unless(fit: bool, number: u32, later: u32) -> u32
    ensures { result ≡ cond fit later number }
{
    if fit { later } else { number }
}

// The number of the first range that a line's values are not in, 1 to 4, or what the tests after them
// give.
#[tactic(auto, unfolding(crate::specs::Frame::values_stop))]
fn values_stop(values: LineValues, later: u32) -> u32
    ensures { result ≡ values_stop values later }
{
    let from_4 = stop_unless(limit_fit(values.limit), 4, later);
    let from_3 = stop_unless(in_range(0.0, 1.0, values.loss), 3, from_4);
    let from_2 = stop_unless(in_range(1.0, 1125899906842624.0, values.rate), 2, from_3);
    stop_unless(in_range(0.0, 1048576.0, values.delay), 1, from_2)
}

// Whether a limit is absent or at most 2^50 bits.
fn limit_fit(limit: Option<u64>) -> bool
    ensures { result ≡ limit_fit limit }
{
    limit.is_none_or(|most| most <= 1125899906842624)
}

// Whether there are at most 16 senders, and the packets of each have 1 to 2^24 bits.
fn sizes_fit(bits: [u64; 16], senders: u32) -> bool
    ensures { result ≡ sizes_fit bits senders }
{
    senders <= 16 && (0..senders as usize).all(|i| 1 <= bits[i] && bits[i] <= 16777216)
}

// Whether the times that a distribution draws are in their range.
fn times_fit(times: ContinuousDistribution) -> bool
    ensures { result ≡ times_fit times }
{
    match times {
        ContinuousDistribution::Always(v) => 0.0 < v && v <= 1048576.0,
        ContinuousDistribution::Uniform(min, max) => 0.0 <= min && min < max && max <= 1048576.0,
    }
}

// Whether a window is in 1..64.
pub fn window_fit(window: u32) -> bool
    ensures { result ≡ window_fit window }
{
    1 <= window && window <= 64
}

// Whether a policy's windows and gap are in their ranges.
fn policy_fit(policy: Policy) -> bool
    ensures { result ≡ policy_fit policy }
{
    match policy {
        Policy::Held(w) => window_fit(w),
        Policy::Grown(first, most) => window_fit(first) && window_fit(most) && first <= most,
        Policy::Timed(most, gap) => {
            window_fit(most) && in_range(0.00000095367431640625, 1048576.0, gap)
        }
    }
}

// Whether there is no return line, or its values are in the ranges of 1 to 4.
#[tactic(auto, unfolding(crate::specs::Frame::values_stop))]
fn back_fit(back: Option<LineValues>) -> bool
    ensures { result ≡ back_fit back }
{
    back.is_none_or(|values| values_stop(values, 0) == 0)
}

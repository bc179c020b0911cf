ghost use Rattle.std.specs.Prelude.{◌≡◌, ◌≤◌, get_or};
ghost use Rattle.remy.specs.Fit.{is_timed, sender_on};
ghost use Rattle.clauses.specs.Tests.{AtMost, timer_test, enabled_test, state_test, start_test, meter_test, agree_test, sent_count_test, words_test, sender_test, senders_test};

use draws::Rng;
use meters::AverageFlowMeter;
use quantities::float::in_range;
use quantities::{Time, TimeSpan};
use ranges::frame::{past_fit, time_held};
use ranges::window_fit;
use sender::{Enabled, LossySender, Policy, SenderState};
use toggler::Toggler;

// Whether a policy holds a timer.
fn is_timed(policy: Policy) -> bool
    ensures { result ≡ is_timed policy }
{
    matches!(policy, Policy::Timed(_, _))
}

// Whether a timer is at most 2^41 and of a timed policy, or there is none.
#[tactic(auto, unfolding(crate::specs::Tests::timer_test))]
fn timer_fit(policy: Policy, timer: Option<Time>) -> bool
    ensures { result ≡ timer_test policy timer }
{
    timer.is_none_or(|t| time_held(t) && is_timed(policy))
}

// Whether what a sender holds while it is on is fit.
#[tactic(auto, unfolding(crate::specs::Tests::enabled_test))]
fn enabled_fit(policy: Policy, clock: Time, enabled: Enabled) -> bool
    ensures { result ≡ enabled_test policy clock enabled }
{
    past_fit(clock, enabled.started)
        && enabled.greatest_ack <= 16777216
        && window_fit(enabled.cwnd)
        && timer_fit(policy, enabled.timer)
}

// Whether a sender's state is fit: it is off, or what it holds is fit.
#[tactic(auto, unfolding(crate::specs::Tests::state_test))]
fn state_fit(policy: Policy, clock: Time, state: SenderState) -> bool
    ensures { result ≡ state_test policy clock state }
{
    match state {
        SenderState::WaitingForEnable => true,
        SenderState::Enabled(enabled) => enabled_fit(policy, clock, enabled),
    }
}

// Whether a meter's start is in 0..clock and at most 2^41, or there is none.
#[tactic(auto, unfolding(crate::specs::Tests::start_test))]
fn start_fit(clock: Time, start: Option<Time>) -> bool
    ensures { result ≡ start_test clock start }
{
    start.is_none_or(|t| past_fit(clock, t))
}

// Whether a meter is fit, for packets of so many bits.
//
// A helper, and no entry point, as are the others here with a `requires`: the caller shows that a
// packet has at most 2^24 bits and that the counts are in their ranges.
#[tactic(auto, unfolding(crate::specs::Tests::meter_test))]
fn meter_fit(bits: u64, clock: Time, meter: AverageFlowMeter) -> bool
    requires { bits ≤ 16777216 }
    ensures { result ≡ meter_test bits clock meter }
{
    start_fit(clock, meter.current_start)
        && in_range(0.0, TimeSpan::MAX.0, meter.total_time.0)
        && in_range(0.0, meter.records as f64 * 2199023255552.0, meter.rtt_sum.0)
        && meter.total.0 == meter.records as u64 * bits
}

// Whether a sender is on.
fn sender_on(state: SenderState) -> bool
    ensures { result ≡ sender_on state }
{
    matches!(state, SenderState::Enabled(_))
}

// Whether toggler, sender and meter agree on on and off.
#[tactic(auto, unfolding(crate::specs::Tests::agree_test))]
fn agree(enabled: bool, state: SenderState, start: Option<Time>) -> bool
    ensures { result ≡ agree_test enabled state start }
{
    let on = sender_on(state);
    enabled == on && on == start.is_some()
}

// Whether at most 2^24 packets were sent, and at least those counted and those under way.
#[tactic(auto, unfolding(crate::specs::Tests::sent_count_test))]
fn sent_count_fit(sent: u32, records: u32, under_way: usize) -> bool
    requires { under_way ≤ 2048 }
    ensures { result ≡ sent_count_test sent records under_way }
{
    sent <= 16777216 && records as usize + under_way <= sent as usize
}

// Whether neither a sender's generator nor its toggler's has four zero words.
#[tactic(auto, unfolding(crate::specs::Tests::words_test))]
fn words_fit(own: Rng, toggling: Rng) -> bool
    ensures { result ≡ words_test own toggling }
{
    !own.all_zero() && !toggling.all_zero()
}

// Whether a sender with its toggler and meter is fit, where so many of its packets wait or are on a
// line.
#[tactic(auto, unfolding(crate::specs::Tests::sender_test))]
fn sender_fit(
    policy: Policy,
    bits: u64,
    clock: Time,
    sender: LossySender,
    toggler: Toggler,
    meter: AverageFlowMeter,
    under_way: usize,
) -> bool
    requires { (bits ≤ 16777216) × (under_way ≤ 2048) }
    ensures { result ≡ sender_test policy bits clock sender toggler meter under_way }
{
    state_fit(policy, clock, sender.state)
        && time_held(toggler.next_toggle)
        && meter_fit(bits, clock, meter)
        && sent_count_fit(sender.packets_sent, meter.records, under_way)
        && agree(toggler.enabled, sender.state, meter.current_start)
        && words_fit(sender.rng, toggler.rng)
}

// Whether the first n senders, with their togglers and meters, are fit, where element i of the sizes is
// the bits of sender i's packets, and of the counts how many of them wait or are on a line.
//
// A helper for `fitness`, and no entry point: `is_fit` has tested the network and counted over rings of 512 places.
#[tactic(auto, unfolding(crate::specs::Tests::senders_test))]
pub fn senders_fit(
    policy: Policy,
    sizes: [u64; 16],
    clock: Time,
    counts: [usize; 16],
    n: u32,
    senders: [LossySender; 16],
    togglers: [Toggler; 16],
    meters: [AverageFlowMeter; 16],
) -> bool
    requires { (n ≤ 16) × AtMost 16777216 n sizes × AtMost 2048 16 counts }
    ensures { result ≡ senders_test policy (λ i. get_or sizes i 0) clock (λ i. get_or counts i 0) n senders togglers meters }
{
    (0..n as usize).all(|i| {
        sender_fit(
            policy,
            sizes[i],
            clock,
            senders[i],
            togglers[i],
            meters[i],
            counts[i],
        )
    })
}

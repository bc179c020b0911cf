// The network of a description. The types converted are of other crates on both sides, so these are
// functions and no `From`.
ghost use Rattle.std.specs.Prelude.{◌≡◌};
ghost use Rattle.report.specs.Network.{distribution_of, policy_of, network_of};

use description::Description;
use draws::ContinuousDistribution;
use link::LineValues;
use quantities::float::from_bits;
use remy::RemyNetwork;
use sender::Policy;

fn distribution_of(distribution: description::Distribution) -> ContinuousDistribution
    ensures { result ≡ distribution_of distribution }
{
    match distribution {
        description::Distribution::Always(v) => ContinuousDistribution::Always(from_bits(v)),
        description::Distribution::Uniform(min, max) => ContinuousDistribution::Uniform(
            from_bits(min),
            from_bits(max),
        ),
    }
}

fn policy_of(policy: description::Policy) -> Policy
    ensures { result ≡ policy_of policy }
{
    match policy {
        description::Policy::Held(w) => Policy::Held(w),
        description::Policy::Grown(first, most) => Policy::Grown(first, most),
        description::Policy::Timed(most, gap) => Policy::Timed(most, from_bits(gap)),
    }
}

// A double is the one that its bits stand for. Every pattern of a NaN gives the one NaN, which is in
// no range, so a build refuses it. A description has no return line.
pub(crate) fn network_of(description: Description) -> RemyNetwork
    ensures { result ≡ network_of description }
{
    let line = LineValues {
        delay: from_bits(description.delay),
        rate: from_bits(description.rate),
        loss: from_bits(description.loss),
        limit: description.limit,
    };
    let bits = description.bits; // the borrow checker wants an array by its own name
    RemyNetwork {
        line,
        back: None,
        bits,
        senders: description.senders,
        on: distribution_of(description.on),
        off: distribution_of(description.off),
        policy: policy_of(description.policy),
    }
}

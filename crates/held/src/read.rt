// What the fields of a line give: a field that is not there reads as 0.
ghost use Rattle.std.specs.Prelude.{◌<◌};

use draws::ContinuousDistribution;
use link::LineValues;
use remy::RemyNetwork;
use script::Line;
use sender::Policy;
use std::array;

// The network of the fields 0 to 35: the line's values, the bits of 16 senders, how many there are; on
// and off, each a kind and two doubles; the policy's kind, two numbers and the gap; whether there is a
// return line, and its values.
pub(crate) fn network(line: Line) -> RemyNetwork {
    let back = if line.number(31) == 0 {
        None
    } else {
        Some(values(line, 32))
    };
    RemyNetwork {
        line: values(line, 0),
        back,
        bits: array::from_fn(|i| line.number(4 + i)),
        senders: line.narrow(20),
        on: distribution(line, 21),
        off: distribution(line, 24),
        policy: policy(line),
    }
}

// The values of a line from field k on: delay, rate, loss, limit.
fn values(line: Line, k: usize) -> LineValues
    requires { k < 33 }
{
    LineValues {
        delay: line.double(k),
        rate: line.double(k + 1),
        loss: line.double(k + 2),
        limit: line.field(k + 3),
    }
}

fn distribution(line: Line, k: usize) -> ContinuousDistribution
    requires { k < 32 }
{
    let a = line.double(k + 1);
    if line.number(k) == 0 {
        ContinuousDistribution::Always(a)
    } else {
        ContinuousDistribution::Uniform(a, line.double(k + 2))
    }
}

fn policy(line: Line) -> Policy {
    let first = line.narrow(28);
    let most = line.narrow(29);
    match line.number(27) {
        0 => Policy::Held(first),
        1 => Policy::Grown(first, most),
        _ => Policy::Timed(most, line.double(30)),
    }
}

ghost use Rattle.std.specs.Prelude.{◌≡◌, ◌≤◌};
ghost use Rattle.remy.specs.Fit.{held};
ghost use Rattle.ranges.specs.Frame.{rings_test, line_test, lines_test, clock_held, past_test, frame_test};

use crate::lines::line_count;
use crate::network_stop;
use link::Line;
use quantities::Time;
use quantities::float::in_range;
use remy::{Head, RemyNetwork};

// Whether network, head and lines are fit, without the packets.
#[tactic(auto, unfolding(crate::specs::Frame::frame_test))]
pub fn frame_fit(network: RemyNetwork, head: Head, lines: [Line; 2]) -> bool
    ensures { result ≡ frame_test network head lines }
{
    network_stop(network) == 0
        && 0.0 <= head.clock.0.0
        && clock_held(head)
        && lines_fit(lines, line_count(network.back))
}

// Whether each of the first so many lines is fit, without its packets.
//
// A helper, and no entry point: the caller shows that there are at most two.
#[tactic(auto, unfolding(crate::specs::Frame::lines_test))]
fn lines_fit(lines: [Line; 2], count: usize) -> bool
    requires { count ≤ 2 }
    ensures { result ≡ lines_test lines count }
{
    (0..count).all(|l| line_fit(lines[l]))
}

// Whether a line's rings are in their ranges, its earliest start is at most 2^41, and its generator has
// not four zero words.
#[tactic(auto, unfolding(crate::specs::Frame::line_test))]
fn line_fit(line: Line) -> bool
    ensures { result ≡ line_test line }
{
    rings_fit(line) && time_held(line.earliest_transmit) && !line.rng.all_zero()
}

// Whether the counts of the rings are at most 512, and their starts below 512.
#[tactic(auto, unfolding(crate::specs::Frame::rings_test))]
fn rings_fit(line: Line) -> bool
    ensures { result ≡ rings_test line }
{
    line.waiting.count <= 512
        && line.on_line.count <= 512
        && line.waiting.start < 512
        && line.on_line.start < 512
}

// Whether the clock is at most 2^41, or MAX where no part is next.
#[tactic(auto, unfolding(crate::specs::Frame::clock_held))]
fn clock_held(head: Head) -> bool
    ensures { result ≡ clock_held head }
{
    time_held(head.clock) || head.next.is_none() && head.clock == Time::MAX
}

// Whether a time is at most 2^41.
pub fn time_held(time: Time) -> bool
    ensures { result ≡ held time }
{
    time.0.0 <= 2199023255552.0
}

// Whether a time is at most 2^41, and in 0..clock.
#[tactic(auto, unfolding(crate::specs::Frame::past_test))]
pub fn past_fit(clock: Time, time: Time) -> bool
    ensures { result ≡ past_test clock time }
{
    time_held(time) && in_range(0.0, clock.0.0, time.0.0)
}

ghost use Rattle.std.specs.Prelude.{◌≡◌};
ghost use Rattle.quantities.specs.Doubles.{zero_f};
ghost use Rattle.quantities.specs.Units.{time_of, span_after, since, earliest_of, latest_of, earliest_opt_of};

use crate::time_span::TimeSpan;
use std::ops::{Add, Sub};

// A moment: the span since the start of the simulation. Moments compare as doubles.
#[derive(Clone, Copy, PartialEq, PartialOrd)]
pub struct Time(pub TimeSpan);

impl Time {
    pub const MIN: Time = Time(TimeSpan::MIN);

    pub const MAX: Time = Time(TimeSpan::MAX);

    pub const SIM_START: Time = Time(TimeSpan::ZERO);

    // The moment that is t after the start: 0 + t.
    pub fn from_sim_start(t: TimeSpan) -> Time
        ensures { result ≡ span_after (time_of zero_f) t }
    {
        Time::SIM_START + t
    }
}

impl Add<TimeSpan> for Time {
    type Output = Time;

    ghost add_gives = { λ time span later. later ≡ span_after time span };

    fn add(self, rhs: TimeSpan) -> Time {
        Time(self.0 + rhs)
    }
}

impl Sub for Time {
    type Output = TimeSpan;

    ghost sub_gives = { λ a b span. span ≡ since a b };

    fn sub(self, rhs: Time) -> TimeSpan {
        TimeSpan(self.0.0 - rhs.0.0)
    }
}

// The earlier of two moments, and the first of two equal ones.
pub fn earliest(a: Time, b: Time) -> Time
    ensures { result ≡ earliest_of a b }
{
    if b < a { b } else { a }
}

// The later of two moments, and the first of two equal ones.
pub fn latest(a: Time, b: Time) -> Time
    ensures { result ≡ latest_of a b }
{
    if a < b { b } else { a }
}

// The earlier of two moments of which either may be absent; none where both are.
pub fn earliest_opt(a: Option<Time>, b: Option<Time>) -> Option<Time>
    ensures { result ≡ earliest_opt_of a b }
{
    match (a, b) {
        (Some(t), Some(u)) => Some(earliest(t, u)),
        (t, None) => t,
        (None, u) => u,
    }
}

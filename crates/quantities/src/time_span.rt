ghost use Rattle.std.specs.Prelude.{◌≡◌};
ghost use Rattle.quantities.specs.Units.{span_sum, span_over};

use std::ops::{Add, Div};

// A duration in seconds.
#[derive(Clone, Copy, PartialEq, PartialOrd)]
pub struct TimeSpan(pub f64);

impl TimeSpan {
    pub const ZERO: TimeSpan = TimeSpan(0.0);
    // The largest finite double, and its negative.
    pub const MAX: TimeSpan = TimeSpan(1.7976931348623157e308);

    pub const MIN: TimeSpan = TimeSpan(-1.7976931348623157e308);
}

impl Add for TimeSpan {
    type Output = TimeSpan;

    ghost add_gives = { λ a b sum. sum ≡ span_sum a b };

    fn add(self, rhs: TimeSpan) -> TimeSpan {
        TimeSpan(self.0 + rhs.0)
    }
}

// A span over a count, which is exact as a double.
impl Div<u32> for TimeSpan {
    type Output = TimeSpan;

    ghost div_gives = { λ span count each. each ≡ span_over span count };

    fn div(self, rhs: u32) -> TimeSpan {
        TimeSpan(self.0 / rhs as f64)
    }
}

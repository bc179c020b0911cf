ghost use Rattle.std.specs.Prelude.{◌≡◌, ◌+◌, ◌-◌, ◌^◌, ◌<◌, ◌≤◌};
ghost use Rattle.quantities.specs.Units.{amount_of, amount_over_rate, amount_over_span};

use crate::information_rate::InformationRate;
use crate::time_span::TimeSpan;
use std::num::nearest_u64_to_f64;
use std::ops::{Add, Div, Sub};

// An amount, in bits. (The Rust counts whole bytes.)
#[derive(Clone, Copy, PartialEq, Eq, PartialOrd, Ord)]
pub struct Information(pub u64);

// The caller shows that the sum fits.
impl Add for Information {
    type Output = Information;

    ghost can_add = { λ a b. a.0 + b.0 < 2 ^ 64 };

    ghost add_gives = { λ a b sum. sum ≡ amount_of (a.0 + b.0) };

    fn add(self, rhs: Information) -> Information {
        Information(self.0 + rhs.0)
    }
}

// The caller shows that what is taken off is no larger.
impl Sub for Information {
    type Output = Information;

    ghost can_sub = { λ a b. b.0 ≤ a.0 };

    ghost sub_gives = { λ a b rest. rest ≡ amount_of (a.0 - b.0) };

    fn sub(self, rhs: Information) -> Information {
        Information(self.0 - rhs.0)
    }
}

// The time that the amount takes at a rate: the bits as a double, divided.
impl Div<InformationRate> for Information {
    type Output = TimeSpan;

    ghost div_gives = { λ a rate time. time ≡ amount_over_rate a rate };

    fn div(self, rhs: InformationRate) -> TimeSpan {
        TimeSpan(nearest_u64_to_f64(self.0) / rhs.0)
    }
}

// The rate of the amount over a span: the bits as a double, divided.
impl Div<TimeSpan> for Information {
    type Output = InformationRate;

    ghost div_gives = { λ a span rate. rate ≡ amount_over_span a span };

    fn div(self, rhs: TimeSpan) -> InformationRate {
        InformationRate(nearest_u64_to_f64(self.0) / rhs.0)
    }
}

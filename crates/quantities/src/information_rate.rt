ghost use Rattle.std.specs.Prelude.{◌≡◌};
ghost use Rattle.quantities.specs.Units.{rate_over};

use std::ops::Div;

// A rate in bits per second.
#[derive(Clone, Copy, PartialEq, PartialOrd)]
pub struct InformationRate(pub f64);

// A rate over a count, which is exact as a double.
impl Div<u32> for InformationRate {
    type Output = InformationRate;

    ghost div_gives = { λ rate count each. each ≡ rate_over rate count };

    fn div(self, rhs: u32) -> InformationRate {
        InformationRate(self.0 / rhs as f64)
    }
}

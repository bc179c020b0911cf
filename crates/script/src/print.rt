// What the test programs print.
use quantities::float::to_bits;
use std::fmt;

// A double, by the 16 digits of its bits.
#[derive(Clone, Copy)]
pub struct Double(pub f64);

impl fmt::Display for Double {
    fn fmt<W: fmt::Write>(&self, f: &mut fmt::Formatter<W>) -> fmt::Result {
        let bits = to_bits(self.0);
        write!(f, "{bits:016x}")
    }
}

// A number, by its 16 digits.
#[derive(Clone, Copy)]
pub struct Hex(pub u64);

impl fmt::Display for Hex {
    fn fmt<W: fmt::Write>(&self, f: &mut fmt::Formatter<W>) -> fmt::Result {
        let n = self.0;
        write!(f, "{n:016x}")
    }
}

ghost use Rattle.std.specs.Prelude.{◌≡◌, from_bits, to_bits};
ghost use Rattle.std.specs.Float.{binary64};
ghost use Rattle.quantities.specs.Doubles.{in_range};

// The double that 64 bits stand for. Every pattern of a NaN gives the one NaN.
pub fn from_bits(bits: u64) -> f64
    ensures { result ≡ from_bits binary64 bits }
{
    if bits % 0x8000_0000_0000_0000 > 0x7ff0_0000_0000_0000 {
        0.0 / 0.0
    } else {
        f64::from_bits(bits)
    }
}

// The 64 bits of a double, and 0x7ff8_0000_0000_0000 for a NaN.
pub fn to_bits(x: f64) -> u64
    ensures { result ≡ to_bits binary64 x }
{
    if x != x {
        0x7ff8_0000_0000_0000
    } else {
        f64::to_bits(x)
    }
}

// Whether x is in lo..hi. Both ends are included; NaN is in none.
pub fn in_range(lo: f64, hi: f64, x: f64) -> bool
    ensures { result ≡ in_range lo hi x }
{
    lo <= x && x <= hi
}

// Reads the lines of a script: a letter, then fields of 16 hexadecimal digits, each after a space. A
// byte that is no digit, or that is not there, counts as the digit 0.
#![tactic(auto)]

ghost use Rattle.std.specs.Prelude.{◌<◌, ◌≡◌, ℕ, ◌%◌, ◌^◌, Some, None, from_bits, MatchOption};
ghost use Rattle.std.specs.Float.{binary64};
ghost use Rattle.script.specs.Script.{byte_at, digit_of, field_at, field_of, number_at};

pub mod input;
pub mod lines;
pub mod print;

use quantities::float::from_bits;
use quantities::{Time, TimeSpan};

// A line of a script, as the text from its start on.
#[derive(Clone, Copy)]
pub struct Line<'a>(pub &'a [u8]);

impl Line<'_> {
    // The letter, and 0 in an empty line.
    pub fn kind(&self) -> u8
        ensures { result ≡ byte_at self.now.0.now 0 }
    {
        byte_at(self.0, 0)
    }

    // Field k as a number.
    #[tactic(auto, using(crate::proofs::Digits::digit_more), unfolding(crate::specs::Script::value_of, crate::specs::Script::number_at))]
    pub fn number(&self, k: usize) -> u64
        ensures { result ≡ number_at self.now.0.now 0 k }
    {
        let from = field(k);
        let mut n: u64 = 0;
        for i in 0..16 {
            n = n * 16 + digit(byte_at(self.0, from + i));
        }
        n
    }

    // Field k as a number, and nothing where it begins with `-`.
    #[tactic(auto, unfolding(crate::specs::Script::field_of, crate::specs::Script::absent_at))]
    pub fn field(&self, k: usize) -> Option<u64>
        ensures { result ≡ field_of self.now.0.now k }
    {
        if byte_at(self.0, field(k)) == b'-' {
            None
        } else {
            Some(self.number(k))
        }
    }

    // The last 32 bits of field k.
    pub fn narrow(&self, k: usize) -> u32
        ensures { result ≡ number_at self.now.0.now 0 k % 2 ^ 32 }
    {
        (self.number(k) & 0xffff_ffff) as u32
    }

    // Field k as the bits of a double.
    pub fn double(&self, k: usize) -> f64
        ensures { result ≡ from_bits binary64 (number_at self.now.0.now 0 k) }
    {
        from_bits(self.number(k))
    }

    // Field k as a time in seconds, by the bits of a double.
    pub fn time(&self, k: usize) -> Time
        ensures { result.0.0 ≡ from_bits binary64 (number_at self.now.0.now 0 k) }
    {
        Time(TimeSpan(self.double(k)))
    }

    // Field k as a time, and nothing where it begins with `-`.
    pub fn time_if_any(&self, k: usize) -> Option<Time>
        ensures { MatchOption result (field_of self.now.0.now k ≡ None) (λ time. (n : ℕ) × (field_of self.now.0.now k ≡ Some n) × (time.0.0 ≡ from_bits binary64 n)) }
    {
        self.field(k).map(|bits| Time(TimeSpan(from_bits(bits))))
    }
}

// The byte at a place, and 0 past the end.
pub fn byte_at(text: &[u8], at: usize) -> u8
    ensures { result ≡ byte_at text.now at }
{
    text.get(at).copied().unwrap_or(0)
}

// The place of field k of a line, counted from 0.
#[tactic(auto, unfolding(crate::specs::Script::field_at))]
fn field(k: usize) -> usize
    ensures { (result ≡ field_at 0 k) × (result < 524919) }
{
    if k < 38 { 2 + 17 * k } else { 524288 }
}

// The value of a byte as a digit. There are no capitals, as `digit_of` says, so `to_digit` would take too much.
// `notation` has such a function for itself. The crates of the reader depend on no other, so none is shared.
#[tactic(auto, unfolding(crate::specs::Script::digit_of))]
fn digit(b: u8) -> u64
    ensures { (result ≡ digit_of b) × (result < 16) }
{
    match b {
        b'0'..=b'9' => (b - b'0') as u64,
        b'a'..=b'f' => (b - b'a' + 10) as u64,
        _ => 0,
    }
}

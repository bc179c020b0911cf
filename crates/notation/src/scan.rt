// The parts that every line of a description is made of, read where they lie: a word, a double, a whole
// number. A reader answers the value and the position after it. Each has the text and a position, as `Reads` of specs
// is of both, so they are no struct.
ghost use Rattle.std.specs.Prelude.{◌≤◌, ◌<◌, ◌≡◌, [], ◌∷◌};
ghost use Rattle.notation.specs.Reading.{Reads, ReadsDigits, ReadsWord, ReadsKey, DigitIs, NoDigit, placed, led_by_zero, word_form, hex_form, decimal_form};

// The value of a lower-case hexadecimal digit.
//
// The hints here and on `digits`, `hex16` and `decimal` are for speed: there is one loop for each base, which is a literal
// in it.
// The crate `script` has one of its own: the reader's crates depend on no other, and this one is private.
#[inline(always)]
fn digit(b: u8) -> Option<u64>
    ensures { DigitIs b result }
{
    match b {
        b'0'..=b'9' => Some(b as u64 - b'0' as u64),
        b'a'..=b'f' => Some(b as u64 - b'a' as u64 + 10),
        _ => None,
    }
}

// The digits from a position up to the first byte that is none, if their value is at most `most`.
//
// A helper within this crate: the caller gives a base of 1 to 16. No `parse` of std: it takes leading zeros, and it
// takes all of what it is given, where the end is not known here.
#[inline(always)]
fn digits(text: &[u8], at: usize, base: u64, most: u64) -> Option<(u64, usize)>
    requires { (0 < base) × (base ≤ 16) }
    ensures { ReadsDigits base most text.now at result }
{
    let mut value: u64 = 0;
    for next in at..text.len() {
        let d = digit(text[next]).unwrap_or(base);
        if base <= d {
            return Some((value, next));
        }
        if most < d || (most - d) / base < value {
            return None;
        }
        value = value * base + d;
    }
    Some((value, at.max(text.len())))
}

// The word at a position: letters and the byte that ends them, as the number that has the bytes for its
// digits to the base 256. A word has at most eight bytes.
pub fn word(text: &[u8], at: usize) -> Option<(u64, usize)>
    ensures { ReadsWord text.now at result }
{
    let mut value: u64 = 0;
    for next in at..text.len() {
        let b = text[next];
        value = value.checked_mul(256)? + b as u64;
        if !b.is_ascii_lowercase() {
            return Some((value, next + 1));
        }
    }
    None
}

// The word with a given value.
pub fn key(text: &[u8], at: usize, key: u64) -> Option<usize>
    ensures { ReadsKey key text.now at result }
{
    let (value, next) = word(text, at)?;
    (value == key).then_some(next)
}

// One byte.
fn byte(text: &[u8], at: usize, b: u8) -> Option<usize>
    ensures { Reads (word_form (b ∷ [])) text.now at (placed result) }
{
    if at < text.len() && text[at] == b {
        Some(at + 1)
    } else {
        None // another byte, or the text ends
    }
}

// A double: 16 hexadecimal digits, and the byte that ends it.
//
// A helper for the crate `description`, and no entry point: the caller gives an end that is no digit. It is a byte: an
// enum of the three ends would ask more of a caller.
#[inline(never)]
pub fn hex16(text: &[u8], at: usize, end: u8) -> Option<(u64, usize)>
    requires { NoDigit 16 (end ∷ []) }
    ensures { Reads (hex_form end) text.now at result }
{
    let (value, next) = digits(text, at, 16, u64::MAX)?;
    if next - at != 16 {
        return None;
    }
    Some((value, byte(text, next, end)?))
}

// Whether a zero leads other digits.
fn led(first: u8, count: usize) -> bool
    ensures { result ≡ led_by_zero first count }
{
    count != 1 && first == b'0'
}

// A whole number: decimal without leading zeros, at most `most`, and the byte that ends it.
//
// A helper for the crate `description`, and no entry point: the caller gives an end that is no digit. It is a byte: an
// enum of the three ends would ask more of a caller.
#[inline(never)]
pub fn decimal(text: &[u8], at: usize, most: u64, end: u8) -> Option<(u64, usize)>
    requires { NoDigit 16 (end ∷ []) }
    ensures { Reads (decimal_form most end) text.now at result }
{
    let (value, next) = digits(text, at, 10, most)?;
    if next == at || led(text[at], next - at) {
        return None;
    }
    Some((value, byte(text, next, end)?))
}

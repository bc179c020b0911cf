// The lines of a description. A reader answers what it read and the position after it. Each has the text and a position,
// as `Reads` of specs is of both, so they are no struct.
#![tactic(auto, using(crate::proofs::Cases::lf_ends, crate::proofs::Cases::colon_ends, crate::proofs::Cases::comma_ends))]

ghost use Rattle.std.specs.Prelude.{◌+◌, ◌^◌, ◌≤◌, ◌<◌, [], ◌∷◌, ◌≡◌};
ghost use Rattle.notation.specs.Reading.{Reads, NoDigit, told, keyed};
ghost use Rattle.description.specs.Text.{Counted};
ghost use Rattle.description.specs.Lines.{ForWord, Tells, limit_case, distribution_case, policy_case, link_case, load_case, course_case, with_value, ReadsBits, kind_form, two_form, limit_form, distribution_value, distribution_form, policy_value, policy_form, link_form, load_form, course_form};

use crate::{Distribution, Policy};
use notation::scan::{decimal, hex16, key, word};

// The greatest number of 32 bits.
pub const MOST32: u64 = u32::MAX as u64;

// Ticks are at most this.
pub const MOST_TICKS: u64 = 65536;

// The `bits` line has at most so many bytes without its LF.
pub const MOST_LINE: usize = 512;

// The words of a description, each as the number that has its bytes for its digits to the base 256. A byte
// string is an array of the function that has it, and by `in_place` no reader of a word has one.
pub const DELAY: u64 = 0x64_65_6c_61_79_3d; // delay=

pub const RATE: u64 = 0x72_61_74_65_3d; // rate=

pub const LOSS: u64 = 0x6c_6f_73_73_3d; // loss=

pub const LIMIT: u64 = 0x6c_69_6d_69_74_3d; // limit=

pub const NONE: u64 = 0x6e_6f_6e_65_0a; // none LF

pub const BITS: u64 = 0x62_69_74_73_3d; // bits=

pub const SENDERS: u64 = 0x73_65_6e_64_65_72_73_3d; // senders=

pub const ON: u64 = 0x6f_6e_3d; // on=

pub const OFF: u64 = 0x6f_66_66_3d; // off=

pub const ALWAYS: u64 = 0x61_6c_77_61_79_73_3a; // always:

pub const UNIFORM: u64 = 0x75_6e_69_66_6f_72_6d_3a; // uniform:

pub const POLICY: u64 = 0x70_6f_6c_69_63_79_3d; // policy=

pub const HELD: u64 = 0x68_65_6c_64_3a; // held:

pub const GROWN: u64 = 0x67_72_6f_77_6e_3a; // grown:

pub const TIMED: u64 = 0x74_69_6d_65_64_3a; // timed:

pub const SEED: u64 = 0x73_65_65_64_3d; // seed=

pub const TICKS: u64 = 0x74_69_63_6b_73_3d; // ticks=

// How a number is written: as a double, or whole and at most a given number. Two forms by name, so no Option.
#[derive(Clone, Copy)]
pub enum Kind {
    Double,
    Whole(u64),
}

// A number, and the byte that ends it.
//
// A helper within this crate: the caller gives an end that is no digit. It is a byte: an enum of the three ends would
// ask more of a caller.
pub(crate) fn ended(text: &[u8], at: usize, kind: Kind, end: u8) -> Option<(u64, usize)>
    requires { NoDigit 16 (end ∷ []) }
    ensures { Reads (kind_form kind end) text.now at result }
{
    match kind {
        Kind::Double => hex16(text, at, end),
        Kind::Whole(most) => decimal(text, at, most, end),
    }
}

// A word, a number, and the byte that ends it.
//
// A helper within this crate: the caller gives the value of a word, and an end that is no digit, a byte as in `ended`.
pub(crate) fn value(text: &[u8], at: usize, word: u64, kind: Kind, end: u8) -> Option<(u64, usize)>
    requires { NoDigit 16 (end ∷ []) }
    ensures { ForWord word (λ w. Reads (keyed w (kind_form kind end)) text.now at result) }
{
    let next = key(text, at, word)?;
    ended(text, next, kind, end)
}

// Two numbers: `n:n`.
pub(crate) fn both(text: &[u8], at: usize, first: Kind, second: Kind) -> Option<((u64, u64), usize)>
    ensures { Reads (two_form first second) text.now at result }
{
    let (a, next) = ended(text, at, first, b':')?;
    let (b, next) = ended(text, next, second, b'\n')?;
    Some(((a, b), next))
}

// limit: `none` or bits.
pub(crate) fn limit_line(text: &[u8], at: usize) -> Option<(Option<u64>, usize)>
    ensures { Reads limit_form text.now at (told limit_case result) }
{
    let from = key(text, at, LIMIT)?;
    if let Some((bits, next)) = ended(text, from, Kind::Whole(u64::MAX), b'\n') {
        return Some((Some(bits), next));
    }
    let next = key(text, from, NONE)?;
    Some((None, next))
}

// The value of on and off: `always:h` or `uniform:h:h`. The first word tells which.
pub(crate) fn distribution_value(text: &[u8], at: usize) -> Option<(Distribution, usize)>
    ensures { Reads distribution_value text.now at (told distribution_case result) }
{
    let (first, next) = word(text, at)?;
    // No `match`: a proof knows its arm by the constant's digits, and an `if` by the constant's name.
    if first == ALWAYS {
        let (v, next) = ended(text, next, Kind::Double, b'\n')?;
        return Some((Distribution::Always(v), next));
    }
    if first == UNIFORM {
        let ((min, max), next) = both(text, next, Kind::Double, Kind::Double)?;
        return Some((Distribution::Uniform(min, max), next));
    }
    None
}

// on or off. It and `policy_line` are no generic over the reader of a value: `in_place` counts a type parameter as an array.
//
// A helper within this crate: the caller gives the value of a word.
pub(crate) fn distribution_line(text: &[u8], at: usize, word: u64) -> Option<(Distribution, usize)>
    ensures { ForWord word (λ w. Reads (distribution_form w) text.now at (told distribution_case result)) }
{
    let next = key(text, at, word)?;
    distribution_value(text, next)
}

// The value of policy: `held:w`, `grown:f:m` or `timed:m:h`. The first word tells which.
pub(crate) fn policy_value(text: &[u8], at: usize) -> Option<(Policy, usize)>
    ensures { Reads policy_value text.now at (told policy_case result) }
{
    let (first, next) = word(text, at)?;
    if first == HELD {
        let (w, next) = ended(text, next, Kind::Whole(MOST32), b'\n')?;
        return Some((Policy::Held(w as u32), next));
    }
    if first == GROWN {
        let ((f, m), next) = both(text, next, Kind::Whole(MOST32), Kind::Whole(MOST32))?;
        return Some((Policy::Grown(f as u32, m as u32), next));
    }
    if first == TIMED {
        let ((m, h), next) = both(text, next, Kind::Whole(MOST32), Kind::Double)?;
        return Some((Policy::Timed(m as u32, h), next));
    }
    None
}

// policy.
pub(crate) fn policy_line(text: &[u8], at: usize) -> Option<(Policy, usize)>
    ensures { Reads policy_form text.now at (told policy_case result) }
{
    let next = key(text, at, POLICY)?;
    policy_value(text, next)
}

// The link: delay, rate, loss and limit. `LineValues` of link has doubles where this has their bits.
#[derive(Clone, Copy)]
pub struct Link {
    pub delay: u64,
    pub rate: u64,
    pub loss: u64,
    pub limit: Option<u64>,
}

pub(crate) fn link_lines(text: &[u8], at: usize) -> Option<(Link, usize)>
    ensures { Reads link_form text.now at (told link_case result) }
{
    let (delay, next) = value(text, at, DELAY, Kind::Double, b'\n')?;
    let (rate, next) = value(text, next, RATE, Kind::Double, b'\n')?;
    let (loss, next) = value(text, next, LOSS, Kind::Double, b'\n')?;
    let (limit, next) = limit_line(text, next)?;
    let link = Link {
        delay,
        rate,
        loss,
        limit,
    };
    Some((link, next))
}

// What the `bits` line says: how many values it has, and the numbers that a description holds. The count goes on above
// the 16 places.
#[derive(Clone, Copy)]
pub struct Sizes {
    pub count: usize,
    pub values: [u64; 16],
}

// One value more. The first 16 are kept.
//
// A helper within this crate: the caller gives fewer values than a text has bytes.
fn with_value(sizes: Sizes, value: u64) -> Sizes
    requires { sizes.count + 1 < 2 ^ 64 }
    ensures { result ≡ with_value sizes value }
{
    let mut more = sizes;
    more.count += 1;
    if sizes.count < 16 {
        more.values[sizes.count] = value;
    }
    more
}

// bits: values joined by commas. One value is that of each sender.
pub(crate) fn bits_line(text: &[u8], at: usize) -> Option<(Sizes, usize)>
    ensures { ReadsBits text.now at result }
{
    let from = key(text, at, BITS)?;
    let mut sizes = Sizes {
        count: 0,
        values: [0; 16],
    };
    let mut last = from;
    // no index is counted, and an iterator of the values would be no plainer
    while let Some((v, next)) = decimal(text, last, u64::MAX, b',') {
        sizes = with_value(sizes, v);
        last = next;
    }
    let (v, next) = decimal(text, last, u64::MAX, b'\n')?;
    if MOST_LINE < next - at - 1 {
        return None;
    }
    if sizes.count == 0 {
        let one = Sizes {
            count: 1,
            values: [v; 16],
        };
        return Some((one, next));
    }
    Some((with_value(sizes, v), next))
}

// Whether so many values of `bits` are one, or one for each sender.
//
// A helper within this crate: the caller gives a count that is not 0.
pub(crate) fn counted(count: usize, senders: u32) -> bool
    requires { 1 ≤ count }
    ensures { Tells (Counted count senders) result }
{
    count == 1 || count == senders as usize
}

// The load: the number of senders, and their on and off times.
#[derive(Clone, Copy)]
pub struct Load {
    pub senders: u32,
    pub on: Distribution,
    pub off: Distribution,
}

pub(crate) fn load_lines(text: &[u8], at: usize) -> Option<(Load, usize)>
    ensures { Reads load_form text.now at (told load_case result) }
{
    let (senders, next) = value(text, at, SENDERS, Kind::Whole(MOST32), b'\n')?;
    let (on, next) = distribution_line(text, next, ON)?;
    let (off, next) = distribution_line(text, next, OFF)?;
    let load = Load {
        senders: senders as u32,
        on,
        off,
    };
    Some((load, next))
}

// The run: policy, seed and ticks.
#[derive(Clone, Copy)]
pub struct Course {
    pub policy: Policy,
    pub seed: u64,
    pub ticks: u32,
}

pub(crate) fn course_lines(text: &[u8], at: usize) -> Option<(Course, usize)>
    ensures { Reads course_form text.now at (told course_case result) }
{
    let (policy, next) = policy_line(text, at)?;
    let (seed, next) = value(text, next, SEED, Kind::Whole(u64::MAX), b'\n')?;
    let (ticks, next) = value(text, next, TICKS, Kind::Whole(MOST_TICKS), b'\n')?;
    let course = Course {
        policy,
        seed,
        ticks: ticks as u32,
    };
    Some((course, next))
}

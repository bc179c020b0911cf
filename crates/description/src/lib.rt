// The text of a description of a network, read (document 01, "The text program").
#![tactic(auto)]

ghost use Rattle.std.specs.Prelude.{◌≡◌};
ghost use Rattle.description.specs.Text.{ReadIs};
ghost use Rattle.description.specs.Lines.{gathered_of};

mod lines;

use lines::{Course, Link, Load, bits_line, counted, course_lines, link_lines, load_lines};

// A double is held as its 64 bits, so that what a text says is told again: `ContinuousDistribution` of draws has doubles,
// and the reader's crates depend on no other.
#[derive(Clone, Copy)]
pub enum Distribution {
    Always(u64),
    Uniform(u64, u64),
}

// `Policy` of sender has a double where this has its bits.
#[derive(Clone, Copy)]
pub enum Policy {
    Held(u32),
    Grown(u32, u32),
    Timed(u32, u64),
}

// A limit of `None` is that of a queue with no limit.
#[derive(Clone, Copy)]
pub struct Description {
    pub delay: u64,
    pub rate: u64,
    pub loss: u64,
    pub limit: Option<u64>,
    pub bits: [u64; 16],
    pub senders: u32,
    pub on: Distribution,
    pub off: Distribution,
    pub policy: Policy,
    pub seed: u64,
    pub ticks: u32,
}

// A text that is no description.
#[derive(Clone, Copy)]
pub struct Malformed;

impl Malformed {
    // Its number in the table of stops.
    pub fn number(self) -> u32
        ensures { result ≡ 15 }
    {
        15
    }
}

// The description of the three groups of lines and the packet bits.
fn gathered(link: Link, bits: [u64; 16], load: Load, course: Course) -> Description
    ensures { result ≡ gathered_of link bits load course }
{
    Description {
        delay: link.delay,
        rate: link.rate,
        loss: link.loss,
        limit: link.limit,
        bits,
        senders: load.senders,
        on: load.on,
        off: load.off,
        policy: course.policy,
        seed: course.seed,
        ticks: course.ticks,
    }
}

// The description that a text is. Anything else is malformed, bytes after the last line included.
pub fn read(text: &[u8]) -> Result<Description, Malformed>
    ensures { ReadIs text.now result }
{
    let (link, next) = link_lines(text, 0).ok_or(Malformed)?;
    let (sizes, next) = bits_line(text, next).ok_or(Malformed)?;
    let (load, next) = load_lines(text, next).ok_or(Malformed)?;
    let (course, end) = course_lines(text, next).ok_or(Malformed)?;
    if !counted(sizes.count, load.senders) {
        return Err(Malformed);
    }
    if end < text.len() {
        return Err(Malformed);
    }
    Ok(gathered(link, sizes.values, load, course))
}

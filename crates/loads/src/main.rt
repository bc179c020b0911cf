// Reads the descriptions of a list so many times over, for bench/run. Nothing is built or run.
//
// Every number of the input is a field of 16 hexadecimal digits (crate `script`): first `L rounds` and
// LF, then for each text `T length`, LF and its bytes. What is left of a list that is cut short is passed
// over. The list has at most 65,536 bytes.
//
// It prints how many texts were given, how many were malformed, and a sum that each number of each
// description has a part in. The file stdout beside src/ holds what the Rust oracle answers.
#![tactic(auto)]

mod sum;
mod texts;

use description::{Description, Malformed};
use script::Line;
use script::input::read_full;
use std::{fmt, io};
use sum::Sum;
use texts::Texts;

// What was read so far.
#[derive(Clone, Copy)]
struct Tally {
    given: u64,
    malformed: u64,
    sum: Sum,
}

fn main(rt: HostRuntime) -> io::Result<()> {
    let mut list = [0u8; 65536];
    let got = read_full(&mut rt.stdin(), &mut list)?;
    println!(rt; "{}", rounds(&list[..got]))
}

// All rounds over a list.
fn rounds(list: &[u8]) -> Tally {
    let mut tally = Tally {
        given: 0,
        malformed: 0,
        sum: Sum(0),
    };
    for _ in 0..Line(list).number(0) {
        for text in Texts::of(list) {
            tally = tally.with(description::read(text));
        }
    }
    tally
}

impl Tally {
    // The tally with one answer more.
    fn with(self, answer: Result<Description, Malformed>) -> Self {
        match answer {
            Ok(description) => Tally {
                given: self.given.saturating_add(1),
                sum: self.sum.described(description),
                ..self
            },
            Err(_) => Tally {
                malformed: self.malformed.saturating_add(1),
                ..self
            },
        }
    }
}

impl fmt::Display for Tally {
    fn fmt<W: fmt::Write>(&self, f: &mut fmt::Formatter<W>) -> fmt::Result {
        write!(
            f,
            "given={} malformed={} sum={:016x}",
            self.given, self.malformed, self.sum.0
        )
    }
}

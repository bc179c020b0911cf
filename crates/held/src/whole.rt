// A digest of every field of a simulation, with both lines, every slot of their rings and every sender,
// toggler, meter and place of the queue, whether in use or not: of the text that they are printed as.
use crate::form::{Form, OrDash};
use crate::sink::Digest;
use draws::ContinuousDistribution;
use link::{Line, LineValues, Ring};
use remy::{RemyNetwork, Simulation};
use script::print::{Double, Hex};
use sender::Policy;
use std::fmt;

pub(crate) fn digest(st: &Simulation) -> Digest {
    Digest::of(Whole(st))
}

#[derive(Clone, Copy)]
struct Whole<'a>(&'a Simulation);

impl fmt::Display for Whole<'_> {
    fn fmt<W: fmt::Write>(&self, f: &mut fmt::Formatter<W>) -> fmt::Result {
        let st = self.0;
        write!(f, "{}", Form(st.network))?;
        for line in &st.lines {
            write!(f, "{} {} ", Form(line.waiting), Form(line.on_line))?;
        }
        write!(f, "{}", Form(&in_use(*st)))
    }
}

// The simulation as if it had a return line, 16 senders and a packet in every slot.
fn in_use(st: Simulation) -> Simulation {
    Simulation {
        network: RemyNetwork {
            back: Some(st.network.line),
            senders: 16,
            ..st.network
        },
        lines: st.lines.map(every_slot),
        ..st
    }
}

fn every_slot(line: Line) -> Line {
    let every = Ring {
        start: 0,
        count: 512,
    };
    Line {
        waiting: every,
        on_line: every,
        ..line
    }
}

impl fmt::Display for Form<Ring> {
    fn fmt<W: fmt::Write>(&self, f: &mut fmt::Formatter<W>) -> fmt::Result {
        let Ring { start, count } = self.0;
        write!(f, "{start}:{count}")
    }
}

impl fmt::Display for Form<RemyNetwork> {
    fn fmt<W: fmt::Write>(&self, f: &mut fmt::Formatter<W>) -> fmt::Result {
        let n = self.0;
        write!(f, "{}{}", Form(n.line), OrDash(n.back.map(Form)))?;
        for bits in n.bits {
            write!(f, "{bits}:")?;
        }
        write!(
            f,
            "{}{}{}{}",
            n.senders,
            Form(n.on),
            Form(n.off),
            Form(n.policy)
        )
    }
}

impl fmt::Display for Form<LineValues> {
    fn fmt<W: fmt::Write>(&self, f: &mut fmt::Formatter<W>) -> fmt::Result {
        let line = self.0;
        write!(
            f,
            "{}{}{}{}",
            Double(line.delay),
            Double(line.rate),
            Double(line.loss),
            OrDash(line.limit.map(Hex))
        )
    }
}

impl fmt::Display for Form<ContinuousDistribution> {
    fn fmt<W: fmt::Write>(&self, f: &mut fmt::Formatter<W>) -> fmt::Result {
        match self.0 {
            ContinuousDistribution::Always(v) => write!(f, "A{}", Double(v)),
            ContinuousDistribution::Uniform(min, max) => {
                write!(f, "U{}{}", Double(min), Double(max))
            }
        }
    }
}

impl fmt::Display for Form<Policy> {
    fn fmt<W: fmt::Write>(&self, f: &mut fmt::Formatter<W>) -> fmt::Result {
        match self.0 {
            Policy::Held(w) => write!(f, "H{w}"),
            Policy::Grown(first, most) => write!(f, "G{first}:{most}"),
            Policy::Timed(most, gap) => write!(f, "T{most}:{}", Double(gap)),
        }
    }
}

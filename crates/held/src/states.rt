// The states that the commands work on.
use crate::edit::edit;
use crate::form::{Flow, Form};
use crate::read::network;
use crate::sink::{Digest, Shown, Sink};
use crate::whole::digest;
use remy::{Built, Simulation};
use script::Line;
use script::print::Hex;
use std::io;

// The held state, and the one that was kept.
#[derive(Clone, Copy)]
pub(crate) struct States {
    held: Simulation,
    kept: Simulation,
}

impl States {
    // A refused build returns the empty simulation: here the rate is 0.
    pub(crate) fn new() -> Self {
        let empty = build(Line(&[])).simulation;
        States {
            held: empty,
            kept: empty,
        }
    }

    // Carries out the command of a line.
    pub(crate) fn obey(&mut self, rt: &impl Print, line: Line) -> io::Result<()> {
        // The kinds are the script's letters: an enum of them would be matched on here again.
        match line.kind() {
            b'H' => {
                lines(line, &mut Shown(rt))?;
                println!(rt)
            }
            b'D' => {
                let mut digest = Digest::new();
                lines(line, &mut digest)?;
                println!(rt; "lines {}", Hex(digest.0))
            }
            b'B' => {
                let built = build(line);
                self.held = built.simulation;
                println!(rt; "build {}", built.number)
            }
            b'K' => {
                self.kept = self.held;
                Ok(())
            }
            b'Z' => {
                self.held = self.kept;
                Ok(())
            }
            b'T' => self.tick(rt),
            b'R' => self.run(rt, line.narrow(0)),
            b'U' => self.ticks(rt, line.narrow(0)),
            b'A' => println!(rt; "{}", Form(&self.held)),
            b'X' => println!(rt; "{}", Digest::of(Form(&self.held))),
            b'F' => println!(rt; "{}", Flow(&self.held, line.narrow(0))),
            _ => {
                edit(line, &mut self.held);
                Ok(())
            }
        }
    }

    // One tick. The record of a tick that did not move is printed too.
    fn tick(&mut self, rt: &impl Print) -> io::Result<()> {
        let before = digest(&self.held);
        let ticked = simulation::tick(self.held);
        self.held = ticked.simulation;
        let moved = if ticked.moved { "moved" } else { "still" };
        let same = if digest(&self.held).0 == before.0 {
            "same"
        } else {
            "changed"
        };
        print!(rt; "tick {} {moved} {same}", ticked.number)?;
        if ticked.moved {
            println!(rt)
        } else {
            println!(rt; " {}", Form(ticked.note))
        }
    }

    fn run(&mut self, rt: &impl Print, n: u32) -> io::Result<()> {
        let ran = simulation::run(self.held, n);
        self.held = ran.simulation;
        self.counted(rt, "run", ran.done, ran.number)
    }

    // So many single ticks, or until one does not move.
    fn ticks(&mut self, rt: &impl Print, n: u32) -> io::Result<()> {
        let mut moved = 0;
        let mut number = 0;
        for i in 0..n {
            let ticked = simulation::tick(self.held);
            self.held = ticked.simulation;
            if !ticked.moved {
                number = ticked.number;
                break;
            }
            moved = i + 1;
        }
        self.counted(rt, "ticks", moved, number)
    }

    // How many ticks moved, the last number, and the clock.
    fn counted(&self, rt: &impl Print, word: &str, moved: u32, number: u32) -> io::Result<()> {
        println!(rt;
            "{word} {moved} {number} {}",
            Form(reading::time(self.held))
        )
    }
}

// The network of a line, built.
fn build(line: Line) -> Built {
    builder::build(network(line), line.number(36))
}

// The lines of the network of a line: so many ticks, or until one does not move.
fn lines(line: Line, out: &mut impl Sink) -> io::Result<()> {
    let built = build(line);
    if built.number != 0 {
        return out.line(format_args!("stop={}", built.number));
    }
    let mut st = built.simulation;
    let mut number = 0;
    out.state(&st)?;
    for _ in 0..line.number(37) {
        let ticked = simulation::tick(st);
        st = ticked.simulation;
        number = ticked.number;
        if ticked.moved {
            out.line(Form(ticked.note))?;
        }
        out.state(&st)?;
        if !ticked.moved {
            break;
        }
    }
    out.line(format_args!("stop={number} clock={}", Form(reading::time(st))))?;
    for i in 0..st.network.senders.min(16) {
        out.line(Flow(&st, i))?;
    }
    Ok(())
}

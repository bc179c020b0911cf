// Where the lines of a network go: they are printed, or folded into a digest.
use crate::form::Form;
use remy::Simulation;
use std::fmt::Write;
use std::{fmt, io};

pub(crate) trait Sink {
    fn line<D: fmt::Display + Drop>(&mut self, line: D) -> io::Result<()>;

    // The line of a held state.
    fn state(&mut self, st: &Simulation) -> io::Result<()>;
}

// Output whose lines are each tried, whatever came of those before: where a write fails, the lines are incomplete.
#[derive(Clone, Copy)]
pub(crate) struct Tried<P>(pub P);

impl<P: Print> Print for Tried<P> {
    fn print<D: fmt::Display + Drop>(&self, value: D) -> io::Result<()> {
        let _ = self.0.print(value);
        Ok(())
    }

    fn println<D: fmt::Display + Drop>(&self, value: D) -> io::Result<()> {
        let _ = self.0.println(value);
        Ok(())
    }

    fn write_all(&self, bytes: &[u8]) -> io::Result<()> {
        let _ = self.0.write_all(bytes);
        Ok(())
    }
}

// Standard output.
#[derive(Clone, Copy)]
pub(crate) struct Shown<P>(pub P);

impl<P: Print> Sink for Shown<P> {
    fn line<D: fmt::Display + Drop>(&mut self, line: D) -> io::Result<()> {
        self.0.println(line)
    }

    fn state(&mut self, st: &Simulation) -> io::Result<()> {
        self.0.println(Form(st))
    }
}

// The digest of what was written (FNV-1a of 64 bits).
#[derive(Clone, Copy)]
pub(crate) struct Digest(pub u64);

impl Digest {
    // Of nothing yet.
    pub(crate) fn new() -> Self {
        Digest(0xcbf2_9ce4_8422_2325)
    }

    pub(crate) fn of<D: fmt::Display + Drop>(value: D) -> Self {
        let mut digest = Digest::new();
        digest.add(value);
        digest
    }

    // A digest takes each text, so that only a value that refuses to be written is cut short.
    fn add<D: fmt::Display + Drop>(&mut self, value: D) {
        let _ = self.write(value);
    }
}

impl fmt::Display for Digest {
    fn fmt<W: fmt::Write>(&self, f: &mut fmt::Formatter<W>) -> fmt::Result {
        write!(f, "digest {:016x}", self.0)
    }
}

impl fmt::Write for Digest {
    fn write_str(&mut self, text: &str) -> fmt::Result {
        for byte in text.as_bytes() {
            self.0 = (self.0 ^ *byte as u64).wrapping_mul(0x100_0000_01b3);
        }
        Ok(())
    }
}

// The line of a state is taken as `digest` and its own digest.
impl Sink for Digest {
    fn line<D: fmt::Display + Drop>(&mut self, line: D) -> io::Result<()> {
        self.add(line);
        self.add("\n");
        Ok(())
    }

    fn state(&mut self, st: &Simulation) -> io::Result<()> {
        self.line(Digest::of(Form(st)))
    }
}

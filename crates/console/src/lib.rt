// The text program (document 01, "The text program") over standard input and output. No contract sees
// what is read or written: these say which bytes are handed to the writes.
#![tactic(auto)]

ghost use Rattle.std.specs.Prelude.{◌≤◌, length};
ghost use mathlib.Core.List.{flatten};
ghost use Rattle.report.specs.Report.{left_of, report_of, ForText};
ghost use Rattle.console.specs.Turns.{TurnIs, HandedIs};

mod input;
mod output;

use crate::output::{Tally, WriteFailed};
use report::Report;

// A part of a report: the first so many bytes of a buffer, whether nothing is left after them, and the
// report of what is left: no Option, as `TurnIs` gives the report where nothing is left too. It cites the buffer and the
// count too, so they are no slice.
#[derive(Clone, Copy)]
struct Turn {
    bytes: [u8; 65536],
    count: usize,
    done: bool,
    report: Report,
}

// Reads a text from standard input and prints its report. No description has as many bytes as the
// buffer, so what is read of a longer input is none. A write that fails has been told on standard error.
pub fn run(rt: &HostRuntime) {
    let mut text = [0u8; 4096];
    let got = input::fill(&mut rt.stdin(), &mut text);
    let _ = print_text(rt, &text[..got]);
}

// Prints the report of a text: as many bytes are handed over as it has, unless a write fails.
fn print_text(rt: &HostRuntime, text: &[u8]) -> Result<Tally, WriteFailed>
    ensures { ForText text.now (λ d. HandedIs (length (flatten (left_of (report_of d)))) result) }
{
    print(rt, report::report_of(text))
}

// Prints a report turn by turn. There are at most 65,536 records, a stop line and 16 flows, and each
// turn has a line at least, so the turns are enough.
fn print(rt: &HostRuntime, report: Report) -> Result<Tally, WriteFailed>
    requires { length (left_of report) ≤ 65553 }
    ensures { HandedIs (length (flatten (left_of report))) result }
{
    let mut left = report;
    let mut tally = output::nothing();
    for _ in 0..65553u32 {
        let turn = next_turn(left);
        tally = output::hand(rt, tally, &turn.bytes[..turn.count])?;
        if turn.done {
            return Ok(tally);
        }
        left = turn.report;
    }
    Ok(tally)
}

// The next part of a report: as many of its lines as the buffer has room for, one at least where any
// is left.
fn next_turn(report: Report) -> Turn
    ensures { TurnIs report result }
{
    let mut bytes = [0u8; 65536];
    let filled = filling::fill(&mut bytes, report);
    Turn {
        bytes,
        count: filled.at,
        done: filled.done,
        report: filled.report,
    }
}

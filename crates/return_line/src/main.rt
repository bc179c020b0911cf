// Prints fourteen ticks of a network with a return line as the text program prints a run: a line for each
// tick, the end, and the flows. A return line has no text, so the network is built here: it is the one of
// docs/RETURN-LINE.md, and docs/draw.py draws what is printed.
#![tactic(auto)]

ghost use Rattle.std.specs.Prelude.{◌≡◌, ◌≤◌};
ghost use Rattle.remy.specs.Build.{build_of};
ghost use Rattle.lines.specs.Lines.{run_lines};
ghost use Rattle.report.specs.Report.{left_of};

use draws::ContinuousDistribution;
use link::LineValues;
use remy::RemyNetwork;
use report::{Report, Stage};
use sender::Policy;
use std::io;

fn main(rt: HostRuntime) -> io::Result<()> {
    let mut out = [0u8; 65536];
    let filled = filling::fill(&mut out, begun(network(), 1, 14));
    let n = counted(filled.at);
    rt.write_all(&out[..n])
}

// Two senders with packets of 8 and of 4 bits, off for 1 s, then on for 100 s, that may have 2 packets
// under way each.
fn network() -> RemyNetwork {
    let mut bits = [0; 16];
    bits[0] = 8;
    bits[1] = 4;
    RemyNetwork {
        line: line(),
        back: Some(back()),
        bits,
        senders: 2,
        on: ContinuousDistribution::Always(100.0),
        off: ContinuousDistribution::Always(1.0),
        policy: Policy::Held(2),
    }
}

// 8 bit/s with a delay of 1 s, where 12 bits may wait.
fn line() -> LineValues {
    LineValues {
        delay: 1.0,
        rate: 8.0,
        loss: 0.0,
        limit: Some(12),
    }
}

// Back: 4 bit/s with a delay of 2 s, where 8 bits may wait; half of the packets are lost.
fn back() -> LineValues {
    LineValues {
        delay: 2.0,
        rate: 4.0,
        loss: 0.5,
        limit: Some(8),
    }
}

// What is to be printed of so many ticks. The contract says it by the definitions, for every network and
// seed.
#[tactic(auto, unfolding(report::specs::Report::left_of))]
fn begun(network: RemyNetwork, seed: u64, ticks: u32) -> Report
    ensures { left_of result ≡ run_lines ticks (build_of network seed).simulation }
{
    Report {
        stage: Stage::Ticks(ticks),
        simulation: builder::build(network, seed).simulation,
    }
}

// A position in the buffer, as a count of its bytes.
fn counted(at: usize) -> usize
    ensures { result ≤ 65536 }
{
    at.min(65536)
}

// The lines of a run (document 01, "The text program"), each put into a lent buffer at a position: `PutIs` of printer is
// of both.
#![tactic(auto)]

ghost use Rattle.std.specs.Prelude.{◌≡◌};
ghost use Rattle.remy.specs.History.{letter_of};
ghost use Rattle.printer.specs.Printing.{PutIs};
ghost use Rattle.meters.specs.Meter.{told_read};
ghost use Rattle.lines.specs.Lines.{rate_measured, rtt_measured, record_line, stop_line, flow_at};

use flows::FlowProperties;
use meters::{AverageFlowMeter, FlowReadError};
use printer::{flow_line, record_line, stop_line};
use quantities::Time;
use quantities::float::to_bits;
use remy::{Mark, Simulation, TickRecord};
use sender::LossySender;

// A mark as its letter. The crate `held`, which does not depend on this one, has the letters as words.
fn letter(mark: Mark) -> u8
    ensures { result ≡ letter_of mark }
{
    match mark {
        Mark::None => b'-',
        Mark::Enabled => b'E',
        Mark::Disabled => b'D',
        Mark::Timer => b'T',
        Mark::Sent => b'S',
        Mark::Full => b'F',
        Mark::Lost => b'L',
        Mark::Counted => b'C',
        Mark::Old => b'O',
        Mark::Ignored => b'I',
        Mark::Passed => b'P',
        Mark::FullBack => b'Q',
        Mark::LostBack => b'N',
    }
}

// A tick's record. The position after the line, or None where the buffer has too little room.
#[tactic(auto, unfolding(crate::specs::Lines::record_line))]
pub fn record_bytes(out: &mut [u8], at: usize, note: TickRecord) -> Option<usize>
    ensures { PutIs (record_line note) out.old at result out.new }
{
    let time = to_bits(note.time.0.0);
    let letter = letter(note.mark);
    record_line(out, at, time, note.part, letter, note.packet, note.started)
}

// The stop line: the last number, and the clock then.
#[tactic(auto, unfolding(crate::specs::Lines::stop_line))]
pub fn stop_bytes(out: &mut [u8], at: usize, number: u32, simulation: Simulation) -> Option<usize>
    ensures { PutIs (stop_line number simulation) out.old at result out.new }
{
    stop_line(out, at, number, to_bits(simulation.head.clock.0.0))
}

// The rate of a flow that is read, or none where the read is refused.
fn rate_of(read: Result<FlowProperties, FlowReadError>) -> Option<u64>
    ensures { result ≡ rate_measured (told_read read) }
{
    read.ok().map(|flow| to_bits(flow.throughput.0))
}

// Its RTT, or none where there is none or the read is refused.
fn rtt_of(read: Result<FlowProperties, FlowReadError>) -> Option<u64>
    ensures { result ≡ rtt_measured (told_read read) }
{
    read.ok()?.rtt.ok().map(|span| to_bits(span.0))
}

// The flow of a sender, its meter read at the clock.
#[tactic(auto, unfolding(crate::specs::Lines::flow_at))]
pub fn flow_bytes(
    out: &mut [u8],
    at: usize,
    i: u32,
    sender: LossySender,
    meter: AverageFlowMeter,
    clock: Time,
) -> Option<usize>
    ensures { PutIs (flow_at i sender meter clock) out.old at result out.new }
{
    let read = meter.average_properties(clock);
    let rate = rate_of(read);
    let rtt = rtt_of(read);
    flow_line(out, at, i, sender.packets_sent, meter.records, rate, rtt)
}

ghost use Rattle.std.specs.Prelude.{◌≡◌, ◌+◌, ◌<◌, ◌^◌};
ghost use Rattle.link.specs.Link.{admits, receive_of, next_transmit, next_deliver, next_tick, is_due, try_deliver, less_of, is_free, try_transmit};

use crate::packet::{Packet, Transit, Waiting};
use crate::ring::Ring;
use draws::Rng;
use quantities::time::{earliest_opt, latest};
use quantities::{Information, InformationRate, Time, TimeSpan};

// A line's own values: its delay in seconds, its rate in bits per second, its loss, and the most bits
// that may wait, if there is a limit.
#[derive(Clone, Copy)]
pub struct LineValues {
    pub delay: f64,
    pub rate: f64,
    pub loss: f64,
    pub limit: Option<u64>,
}

// What a link holds beside its packets: when the next packet may start, the waiting bits, the rings
// of the packets that wait and of those on the line, and its generator.
#[derive(Clone, Copy)]
pub struct Line {
    pub earliest_transmit: Time,
    pub buffer_contains: Information,
    pub waiting: Ring,
    pub on_line: Ring,
    pub rng: Rng,
}

// What an arrival does: the number (0 or 12), whether the packet is admitted, and the line after it.
#[derive(Clone, Copy)]
pub struct Arrival {
    pub number: u32,
    pub admitted: bool,
    pub line: Line,
}

// The packet that leaves the line, if any: lost, or handed over. Three cases, so no Option.
#[derive(Clone, Copy)]
pub enum Left {
    Nobody,
    Lost(Packet),
    Out(Packet),
}

#[derive(Clone, Copy)]
pub struct Delivered {
    pub left: Left,
    pub line: Line,
}

// What a start does: the number (0 or 13), the packet that starts, if any, and the line after it.
#[derive(Clone, Copy)]
pub struct Transmitted {
    pub number: u32,
    pub begun: Option<Transit>,
    pub line: Line,
}

// Whether a packet is admitted while so many bits wait.
#[tactic(auto, unfolding(crate::specs::Link::admits))]
pub(crate) fn admits_bits(limit: Option<u64>, waiting: Information, bits: Information) -> bool
    ensures { result ≡ admits limit waiting bits }
{
    match limit {
        None => true,
        Some(most) => bits.0 <= most && waiting.0 <= most - bits.0,
    }
}

// A packet arrives.
//
// A helper for the crates above, and no entry point: the caller shows that the waiting bits fit.
#[tactic(auto, unfolding(crate::specs::Link::receive_of))]
pub fn receive(limit: Option<u64>, line: Line, bits: Information) -> Arrival
    requires { line.buffer_contains.0 + bits.0 < 2 ^ 64 }
    ensures { result ≡ receive_of limit line bits }
{
    if !admits_bits(limit, line.buffer_contains, bits) {
        return Arrival {
            number: 0,
            admitted: false,
            line,
        };
    }
    if line.waiting.count >= 512 {
        return Arrival {
            number: 12,
            admitted: false,
            line,
        };
    }
    Arrival {
        number: 0,
        admitted: true,
        line: Line {
            buffer_contains: line.buffer_contains + bits,
            waiting: line.waiting.push(),
            ..line
        },
    }
}

// The link's own next time. `due` is the first due time, and is read only where a packet is on the
// line.
#[tactic(auto, unfolding(crate::specs::Link::next_tick))]
pub fn next_tick(line: Line, clock: Time, due: Time) -> Option<Time>
    ensures { result ≡ next_tick line clock due }
{
    earliest_opt(next_transmit(line, clock), next_deliver(line, due))
}

// When the first waiting packet may start, if one waits.
#[tactic(auto, unfolding(crate::specs::Link::next_transmit))]
fn next_transmit(line: Line, clock: Time) -> Option<Time>
    ensures { result ≡ next_transmit line clock }
{
    if line.waiting.count > 0 {
        Some(latest(clock, line.earliest_transmit))
    } else {
        None
    }
}

// When the first packet on the line is due, if one is there.
#[tactic(auto, unfolding(crate::specs::Link::next_deliver))]
fn next_deliver(line: Line, due: Time) -> Option<Time>
    ensures { result ≡ next_deliver line due }
{
    (line.on_line.count > 0).then_some(due)
}

// The first packet on the line leaves, if it is due. A sample is drawn whenever one leaves.
//
// A helper for the crates above, and no entry point: the caller shows that the ring is in range.
#[tactic(auto, using(crate::proofs::Limits::due_count), unfolding(crate::specs::Link::try_deliver))]
pub fn try_deliver(line: Line, clock: Time, front: Transit, loss: f64) -> Delivered
    requires { line.on_line.start < 512 }
    ensures { result ≡ try_deliver line clock front loss }
{
    if !is_due(line, clock, front) {
        return Delivered {
            left: Left::Nobody,
            line,
        };
    }
    let drawn = draws::distribution::sample_unit(line.rng);
    let left = if drawn.value < loss {
        Left::Lost(front.packet)
    } else {
        Left::Out(front.packet)
    };
    Delivered {
        left,
        line: Line {
            on_line: line.on_line.pop(),
            rng: drawn.rng,
            ..line
        },
    }
}

// Whether a packet is on the line, and the first is due.
#[tactic(auto, unfolding(crate::specs::Link::is_due))]
fn is_due(line: Line, clock: Time, front: Transit) -> bool
    ensures { result ≡ is_due line clock front }
{
    line.on_line.count > 0 && front.due == clock
}

// Whether the line is free, and a packet waits.
#[tactic(auto, using(quantities::proofs::Comparisons::no_later), unfolding(crate::specs::Link::is_free))]
fn is_free(line: Line, clock: Time) -> bool
    ensures { result ≡ is_free line clock }
{
    line.earliest_transmit <= clock && line.waiting.count > 0
}

// The first waiting packet starts, if the line is free. What it carries is taken off the waiting bits.
//
// A helper for the crates above, and no entry point: the caller shows that the ring is in range.
#[tactic(auto, using(crate::proofs::Limits::free_count), unfolding(crate::specs::Link::try_transmit))]
pub fn try_transmit(
    line: Line,
    clock: Time,
    first: Waiting,
    delay: TimeSpan,
    packet_rate: InformationRate,
) -> Transmitted
    requires { line.waiting.start < 512 }
    ensures { result ≡ try_transmit line clock first delay packet_rate }
{
    if !is_free(line, clock) {
        return Transmitted {
            number: 0,
            begun: None,
            line,
        };
    }
    if line.on_line.count >= 512 {
        return Transmitted {
            number: 13,
            begun: None,
            line,
        };
    }
    Transmitted {
        number: 0,
        begun: Some(Transit {
            packet: first.packet,
            due: clock + delay,
        }),
        line: Line {
            earliest_transmit: clock + first.bits / packet_rate,
            buffer_contains: less(line.buffer_contains, first.bits),
            waiting: line.waiting.pop(),
            on_line: line.on_line.push(),
            ..line
        },
    }
}

// An amount less another, and 0 where the other is larger.
fn less(a: Information, b: Information) -> Information
    ensures { result ≡ less_of a b }
{
    Information(a.0.saturating_sub(b.0))
}

// A simulation with one of its parts anew, from the fields of a line. An index out of range changes
// nothing.
ghost use Rattle.std.specs.Prelude.{◌<◌};

use crate::read::network;
use draws::Rng;
use link::{Packet, Ring, Transit, Waiting};
use meters::AverageFlowMeter;
use quantities::{Information, TimeSpan};
use remy::{Head, Simulation};
use script::Line;
use sender::{Enabled, SenderState};
use toggler::{Queued, Toggler};

// Puts the part of a line's letter anew.
pub(crate) fn edit(line: Line, st: &mut Simulation) {
    // The kinds are the script's letters: an enum of them would be matched on here again.
    match line.kind() {
        b'V' => st.network = network(line),
        b'C' => st.head = head(line),
        b'L' => put_line(line, &mut st.lines[0]),
        b'l' => put_line(line, &mut st.lines[1]),
        b'W' => fill(line, &mut st.waiting[..512], waiting(line)),
        b'w' => fill(line, &mut st.waiting[512..], waiting(line)),
        b'O' => fill(line, &mut st.on_line[..512], transit(line)),
        b'o' => fill(line, &mut st.on_line[512..], transit(line)),
        b'S' => {
            if let Some(sender) = st.senders.get_mut(size(line, 0)) {
                sender.packets_sent = line.narrow(1);
                sender.state = state(line);
            }
        }
        b'G' => put(line, &mut st.togglers, toggler(line)),
        b'M' => put(line, &mut st.meters, meter(line)),
        b'Q' => put(line, &mut st.queue, queued(line)),
        _ => {}
    }
}

// The element of field 0 anew.
fn put<T: Copy>(line: Line, all: &mut [T], element: T) {
    if let Some(place) = all.get_mut(size(line, 0)) {
        *place = element;
    }
}

// C clock next
fn head(line: Line) -> Head {
    Head {
        clock: line.time(0),
        next: line.field(1).map(|_| size(line, 1)),
    }
}

// L earliest-start bits, start and count of those that wait, start and count of those on the line;
// l likewise, of the return line
fn put_line(line: Line, out: &mut link::Line) {
    out.earliest_transmit = line.time(0);
    out.buffer_contains = Information(line.number(1));
    out.waiting = ring(line, 2);
    out.on_line = ring(line, 4);
}

fn ring(line: Line, k: usize) -> Ring
    requires { k < 32 }
{
    Ring {
        start: size(line, k),
        count: size(line, k + 1),
    }
}

// O place count sender sequence sent-time due: so many places of those on the line
// W place count sender sequence sent-time bits: so many places of those that wait
// o and w likewise, of the return line
fn fill<T: Copy>(line: Line, ring: &mut [T], element: T) {
    let start = size(line, 0);
    for k in 0..size(line, 1).min(512) {
        if let Some(place) = ring.get_mut(slot(start, k)) {
            *place = element;
        }
    }
}

// The slot of the place k after a start in a ring.
pub(crate) fn slot(start: usize, k: usize) -> usize
    ensures { result < 512 }
{
    if start < 512 && k < 512 {
        (start + k) % 512
    } else {
        0
    }
}

fn waiting(line: Line) -> Waiting {
    Waiting {
        packet: packet(line),
        bits: Information(line.number(5)),
    }
}

fn transit(line: Line) -> Transit {
    Transit {
        packet: packet(line),
        due: line.time(5),
    }
}

fn packet(line: Line) -> Packet {
    Packet {
        sender: line.narrow(2),
        seq: line.narrow(3),
        sent_time: line.time(4),
    }
}

// S i sent on started greatest-ack window timer
fn state(line: Line) -> SenderState {
    if line.number(2) == 0 {
        return SenderState::WaitingForEnable;
    }
    SenderState::Enabled(Enabled {
        started: line.time(3),
        greatest_ack: line.narrow(4),
        cwnd: line.narrow(5),
        timer: line.time_if_any(6),
    })
}

// G i on next-toggle, and the generator's four words, of which four zeros are replaced
fn toggler(line: Line) -> Toggler {
    Toggler {
        enabled: line.number(1) != 0,
        next_toggle: line.time(2),
        rng: Rng::from_words(
            line.number(3),
            line.number(4),
            line.number(5),
            line.number(6),
        ),
    }
}

// M i total-time start bits records rtt-sum
// Also in `meter_scripts`, from its own fields: `script`, on which both depend, depends on no meters.
fn meter(line: Line) -> AverageFlowMeter {
    AverageFlowMeter {
        total_time: TimeSpan(line.double(1)),
        current_start: line.time_if_any(2),
        total: Information(line.number(3)),
        records: line.narrow(4),
        rtt_sum: TimeSpan(line.double(5)),
    }
}

// Q place time
fn queued(line: Line) -> Queued {
    Queued {
        time: line.time_if_any(1),
    }
}

fn size(line: Line, k: usize) -> usize {
    line.narrow(k) as usize
}

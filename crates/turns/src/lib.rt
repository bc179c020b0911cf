// What a part does in its turn, as functions on small structs: the loop of ticks reads the elements
// that a turn needs, calls these, and stores what they give. Each is a piece of the tick definition.
//
// All functions here are helpers for the crate `advance`, and no entry points.
//
// A state made by hand holds any ring and any index, so those that read them ask for `start < 512` or
// `i < 16`, and no invariant of a type has it.
#![tactic(auto)]

ghost use Rattle.std.specs.Prelude.{◌≡◌, ◌+◌, ◌*◌, ◌%◌, ◌≤◌, ◌<◌, ◌^◌};
ghost use Rattle.meters.specs.Meter.{switched_of};
ghost use Rattle.remy.specs.State.{values_of};
ghost use Rattle.remy.specs.Tick.{empty_record, begun_name, lost_mark};
ghost use Rattle.remy.specs.Run.{batch, noted_with};
ghost use Rattle.turns.specs.Turns.{left_name, owner_of, link_values, link_acted, on_line_at, passed_on, heard_by, link_note, sender_acted, arrival_mark, arrived_at, waiting_at, sender_note, switched_to, toggler_note};

use lent::{record_lending, switch_lending};
use link::{Left, Line, Packet, Transit, Waiting};
use meters::{AverageFlowMeter, Reception};
use quantities::{Information, InformationRate, Time, TimeSpan};
use queueing::time_anew;
use ranges::lines::{has_back, values_of};
use remy::{Mark, Noted, RemyNetwork, TickRecord};
use sender::{Enabled, Heard, LossySender, Policy, SenderState};

// The values of a line that its link's turn reads: its delay, rate and loss. No `LineValues`: the limit is
// left out for speed (docs/DECISIONS.md).
#[derive(Clone, Copy)]
pub struct LinkValues {
    pub delay: f64,
    pub rate: f64,
    pub loss: f64,
}

// What a link did: the number, the packet that left, the packet that started with its place, and the
// line.
#[derive(Clone, Copy)]
pub struct LinkActed {
    pub number: u32,
    pub left: Left,
    pub begun: Option<Transit>,
    pub at: usize,
    pub line: Line,
}

// What came of the packet that left: whether a sender heard of it, the mark, the sender, its meter. No
// Option of the sender: `heard_by` has the flag and the sender.
#[derive(Clone, Copy)]
pub struct Hearing {
    pub heard: bool,
    pub mark: Mark,
    pub sender: LossySender,
    pub meter: AverageFlowMeter,
}

// What a sender did: the number, the packet that it sends (none where its timer goes), and the sender.
#[derive(Clone, Copy)]
pub struct SenderActed {
    pub number: u32,
    pub sending: Option<Packet>,
    pub sender: LossySender,
}

// What came of it at the link: the number, whether a packet arrived, whether it was admitted and at
// which place, the mark, and the line.
#[derive(Clone, Copy)]
pub struct Arriving {
    pub number: u32,
    pub arrives: bool,
    pub admitted: bool,
    pub at: usize,
    pub mark: Mark,
    pub line: Line,
}

// Values made anew from their parts, since copies are slower (`queueing::time_anew`).
fn packet_anew(packet: Packet) -> Packet
    ensures { result ≡ packet }
{
    Packet {
        sender: packet.sender,
        seq: packet.seq,
        sent_time: packet.sent_time,
    }
}

fn waiting_anew(waiting: Waiting) -> Waiting
    ensures { result ≡ waiting }
{
    Waiting {
        packet: packet_anew(waiting.packet),
        bits: waiting.bits,
    }
}

fn transit_anew(transit: Transit) -> Transit
    ensures { result ≡ transit }
{
    Transit {
        packet: packet_anew(transit.packet),
        due: transit.due,
    }
}

fn meter_anew(meter: AverageFlowMeter) -> AverageFlowMeter
    ensures { result ≡ meter }
{
    AverageFlowMeter {
        current_start: time_anew(meter.current_start),
        ..meter
    }
}

fn sender_anew(sender: LossySender) -> LossySender
    ensures { result ≡ sender }
{
    match sender.state {
        SenderState::WaitingForEnable => LossySender {
            state: SenderState::WaitingForEnable,
            ..sender
        },
        SenderState::Enabled(enabled) => LossySender {
            state: SenderState::Enabled(Enabled {
                timer: time_anew(enabled.timer),
                ..enabled
            }),
            ..sender
        },
    }
}

// The sender of a packet, as an index that is there.
pub fn owner(packet: Packet) -> usize
    ensures { result ≡ owner_of packet }
{
    if packet.sender < 16 {
        packet.sender as usize
    } else {
        0
    }
}

// What the turn of the link of line l reads of the line's values.
#[tactic(auto, using(ranges::proofs::Bounds::values_same))]
pub fn values_at(network: RemyNetwork, l: usize) -> LinkValues
    ensures { result ≡ link_values (values_of network l) }
{
    let values = values_of(network.line, network.back, l);
    LinkValues {
        delay: values.delay,
        rate: values.rate,
        loss: values.loss,
    }
}

// A link's turn by the values of its line: first the packet that leaves, then the packet that starts.
//
// A helper for the crate `advance`, and no entry point: the rings have been tested there (9).
#[tactic(auto, unfolding(crate::specs::Turns::link_acted))]
pub fn link_acts(
    values: LinkValues,
    line: Line,
    clock: Time,
    front: Transit,
    first: Waiting,
) -> LinkActed
    requires { (line.waiting.start < 512) × (line.on_line.start < 512) × (line.on_line.count ≤ 512) }
    ensures { result ≡ link_acted values line clock front first }
{
    let d = link::try_deliver(line, clock, front, values.loss);
    let at = d.line.on_line.end();
    let delay = TimeSpan(values.delay);
    let rate = InformationRate(values.rate);
    let t = link::try_transmit(d.line, clock, first, delay, rate);
    LinkActed {
        number: t.number,
        left: d.left,
        begun: t.begun,
        at,
        line: t.line,
    }
}

// What a place of the line holds then, made anew in each case (`queueing::time_anew`).
pub fn on_line_at(begun: Option<Transit>, old: Transit) -> Transit
    ensures { result ≡ on_line_at begun old }
{
    match begun {
        None => transit_anew(old),
        Some(x) => transit_anew(x),
    }
}

// What the bouncer passes on to the return line: the packet that left the first line, if there is a
// return line and it was not lost.
pub fn pass_on(network: RemyNetwork, l: usize, left: Left) -> Option<Packet>
    ensures { result ≡ passed_on network l left }
{
    match left {
        Left::Out(packet) if l == 0 && has_back(network.back) => Some(packet),
        _ => None,
    }
}

// The mark of a packet that line l lost.
fn lost_mark(l: usize) -> Mark
    ensures { result ≡ lost_mark l }
{
    match l {
        0 => Mark::Lost,
        _ => Mark::LostBack,
    }
}

// The packet that left line l comes to its sender, if it was not lost; a counted one goes into the
// meter, with the bits of the sender's packets. Seven parameters, as `heard_by` has them.
#[tactic(auto, unfolding(crate::specs::Turns::heard_by))]
pub fn hear(
    policy: Policy,
    bits: u64,
    clock: Time,
    l: usize,
    left: Left,
    sender: LossySender,
    meter: AverageFlowMeter,
) -> Hearing
    ensures { result ≡ heard_by policy bits clock l left sender meter }
{
    let Left::Out(p) = left else {
        let mark = match left {
            Left::Lost(_) => lost_mark(l),
            _ => Mark::None,
        };
        return Hearing {
            heard: false,
            mark,
            sender: sender_anew(sender),
            meter: meter_anew(meter),
        };
    };
    let r = sender.receive_packet(policy, p);
    let (mark, meter) = match r.heard {
        Heard::Ignored => (Mark::Ignored, meter_anew(meter)),
        Heard::Old => (Mark::Old, meter_anew(meter)),
        Heard::Counted => {
            let reception = Reception {
                data: Information(bits),
                rtt: clock - p.sent_time,
            };
            let counted = record_lending(meter, reception, clock).unwrap_or(meter);
            (Mark::Counted, meter_anew(counted))
        }
    };
    Hearing {
        heard: true,
        mark,
        sender: sender_anew(r.sender),
        meter,
    }
}

// The record of a link's turn, the link being so many a part.
pub fn link_note(
    clock: Time,
    part: usize,
    left: Left,
    begun: Option<Transit>,
    mark: Mark,
) -> TickRecord
    ensures { result ≡ link_note clock part left begun mark }
{
    TickRecord {
        time: clock,
        part,
        mark,
        packet: left_name(left),
        started: begun_name(begun),
    }
}

fn left_name(left: Left) -> Option<(u32, u32)>
    ensures { result ≡ left_name left }
{
    match left {
        Left::Nobody => None,
        Left::Lost(p) | Left::Out(p) => Some((p.sender, p.seq)),
    }
}

fn begun_name(begun: Option<Transit>) -> Option<(u32, u32)>
    ensures { result ≡ begun_name begun }
{
    begun.map(|x| (x.packet.sender, x.packet.seq))
}

// A sender's turn: a timer equal to the clock goes first and alone; else one packet.
//
// A helper for the crate `advance`, and no entry point: the next part has been tested there (9).
#[tactic(auto, unfolding(crate::specs::Turns::sender_acted))]
pub fn sender_acts(network: RemyNetwork, clock: Time, sender: LossySender, i: usize) -> SenderActed
    requires { i < 16 }
    ensures { result ≡ sender_acted network clock sender i }
{
    let SenderState::Enabled(enabled) = sender.state else {
        return SenderActed {
            number: 9,
            sending: None,
            sender,
        };
    };
    if enabled.timer_due(clock) {
        return SenderActed {
            number: 0,
            sending: None,
            sender: LossySender {
                state: SenderState::Enabled(enabled.tick_timer(network.policy, clock)),
                ..sender
            },
        };
    }
    let t = enabled.tick_send(sender.packets_sent, network.policy, clock, i as u32);
    SenderActed {
        number: t.number,
        sending: Some(t.packet),
        sender: LossySender {
            packets_sent: t.packets_sent,
            state: SenderState::Enabled(t.enabled),
            ..sender
        },
    }
}

// The mark of a packet that line l admits or drops full.
fn arrival_mark(l: usize, admitted: bool) -> Mark
    ensures { result ≡ arrival_mark l admitted }
{
    match (l, admitted) {
        (0, true) => Mark::Sent,
        (0, false) => Mark::Full,
        (_, true) => Mark::Passed,
        (_, false) => Mark::FullBack,
    }
}

// The packet that was sent, or passed on, arrives at the link of line l, which has so large a limit.
//
// A helper for the crate `advance`, and no entry point: the rings and the waiting bits have been
// tested there (9).
#[tactic(auto, unfolding(crate::specs::Turns::arrived_at))]
pub fn arrive(
    l: usize,
    limit: Option<u64>,
    bits: u64,
    line: Line,
    sending: Option<Packet>,
) -> Arriving
    requires { (line.waiting.start < 512) × (line.waiting.count ≤ 512) × (line.buffer_contains.0 + bits < 2 ^ 64) }
    ensures { result ≡ arrived_at l limit bits line sending }
{
    let at = line.waiting.end();
    if sending.is_none() {
        return Arriving {
            number: 0,
            arrives: false,
            admitted: false,
            at,
            mark: Mark::Timer,
            line,
        };
    }
    let a = link::receive(limit, line, Information(bits));
    Arriving {
        number: a.number,
        arrives: true,
        admitted: a.admitted,
        at,
        mark: arrival_mark(l, a.admitted),
        line: a.line,
    }
}

// What a place of the queue of packets holds then: an admitted packet waits with its sender's bits.
pub fn waiting_at(admitted: bool, bits: u64, sending: Option<Packet>, old: Waiting) -> Waiting
    ensures { result ≡ waiting_at admitted bits sending old }
{
    match sending {
        Some(packet) if admitted => Waiting {
            packet: packet_anew(packet),
            bits: Information(bits),
        },
        _ => waiting_anew(old),
    }
}

// The record of a sender's turn.
//
// A helper for the crate `advance`, and no entry point: the next part has been tested there (9).
pub fn sender_note(clock: Time, i: usize, sending: Option<Packet>, mark: Mark) -> TickRecord
    requires { i < 16 }
    ensures { result ≡ sender_note clock i sending mark }
{
    TickRecord {
        time: clock,
        part: 1 + 2 * i,
        mark,
        packet: sending.map(|p| (p.sender, p.seq)),
        started: None,
    }
}

// A sender that its toggler switches.
pub fn switched(policy: Policy, on: bool, sender: LossySender, clock: Time) -> LossySender
    ensures { result ≡ switched_to policy on sender clock }
{
    if on {
        sender.enable(policy, clock)
    } else {
        sender.disable()
    }
}

// The meter of a sender that its toggler switches.
pub fn metered(meter: AverageFlowMeter, on: bool, clock: Time) -> AverageFlowMeter
    ensures { result ≡ (switched_of meter on clock).meter }
{
    switch_lending(meter, on, clock).unwrap_or(meter)
}

// The record of a toggler's turn.
//
// A helper for the crate `advance`, and no entry point: the next part has been tested there (9).
pub fn toggler_note(clock: Time, i: usize, on: bool) -> TickRecord
    requires { i < 16 }
    ensures { result ≡ toggler_note clock i on }
{
    TickRecord {
        time: clock,
        part: 2 + 2 * i,
        mark: if on { Mark::Enabled } else { Mark::Disabled },
        packet: None,
        started: None,
    }
}

// The record of a tick that did not move.
pub fn empty_record() -> TickRecord
    ensures { result ≡ empty_record }
{
    TickRecord {
        time: Time::SIM_START,
        part: 0,
        mark: Mark::None,
        packet: None,
        started: None,
    }
}

// A record with the bits that wait for the first line.
pub fn noted(note: TickRecord, first: Line) -> Noted
    ensures { result ≡ noted_with note first }
{
    Noted {
        note,
        waiting: first.buffer_contains,
    }
}

// The place of the record of the tick after so many: the places are used over again.
pub fn record_place(done: u32) -> usize
    ensures { result ≡ done % batch }
{
    (done % 256) as usize
}

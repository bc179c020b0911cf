use crate::network::RemyNetwork;
use link::{Line, Transit, Waiting};
use meters::AverageFlowMeter;
use quantities::{Information, Time};
use sender::LossySender;
use toggler::{Queued, Toggler};

// The clock, and the part whose turn is next, if any.
#[derive(Clone, Copy)]
pub struct Head {
    pub clock: Time,
    pub next: Option<usize>,
}

// A simulation: its network, the clock and the next part, the two lines with the packets that wait
// and those on the line, the senders, togglers and meters, and the queue of the parts' times. Line 1
// is the return line; the packets of line l lie in the places from 512 l on. Where the network has no
// return line, nobody reads what is held for it.
#[derive(Clone, Copy)]
pub struct Simulation {
    pub network: RemyNetwork,
    pub head: Head,
    pub lines: [Line; 2],
    pub waiting: [Waiting; 1024],
    pub on_line: [Transit; 1024],
    pub senders: [LossySender; 16],
    pub togglers: [Toggler; 16],
    pub meters: [AverageFlowMeter; 16],
    pub queue: [Queued; 35],
}

// What a tick did, beside a packet that it started.
#[derive(Clone, Copy)]
pub enum Mark {
    None,
    Enabled,
    Disabled,
    Timer,
    Sent,
    Full,
    Lost,
    Counted,
    Old,
    Ignored,
    Passed,
    FullBack,
    LostBack,
}

// A tick's record: the clock, the part, the mark, the packet that the mark is about, and the packet
// that started. A packet is named by its sender and its sequence number.
#[derive(Clone, Copy)]
pub struct TickRecord {
    pub time: Time,
    pub part: usize,
    pub mark: Mark,
    pub packet: Option<(u32, u32)>,
    pub started: Option<(u32, u32)>,
}

// What a build gives: a number of document 01, and the simulation, empty where it is refused.
#[derive(Clone, Copy)]
pub struct Built {
    pub number: u32,
    pub simulation: Simulation,
}

// What a tick gives: a number of document 01, whether it moved, its record, and the simulation.
#[derive(Clone, Copy)]
pub struct Ticked {
    pub number: u32,
    pub moved: bool,
    pub note: TickRecord,
    pub simulation: Simulation,
}

// What a run gives: how many ticks were done, the last number, and the simulation.
#[derive(Clone, Copy)]
pub struct Ran {
    pub done: u32,
    pub number: u32,
    pub simulation: Simulation,
}

// A tick's record, and the bits that wait for the first line after it.
#[derive(Clone, Copy)]
pub struct Noted {
    pub note: TickRecord,
    pub waiting: Information,
}

// What a run with records gives: how many ticks were done, the last number, their records from the
// first place on, and the simulation.
#[derive(Clone, Copy)]
pub struct Recorded {
    pub done: u32,
    pub number: u32,
    pub records: [Noted; 256],
    pub simulation: Simulation,
}

use quantities::{Information, Time};

// A packet: its sender's index, its sequence number, and when it was sent. The sender is source and
// destination alike.
#[derive(Clone, Copy)]
pub struct Packet {
    pub sender: u32,
    pub seq: u32,
    pub sent_time: Time,
}

// A packet that waits, and the bits that it carries. On the line it carries none.
#[derive(Clone, Copy)]
pub struct Waiting {
    pub packet: Packet,
    pub bits: Information,
}

// A packet on the line, and when it is due at the far end.
#[derive(Clone, Copy)]
pub struct Transit {
    pub packet: Packet,
    pub due: Time,
}

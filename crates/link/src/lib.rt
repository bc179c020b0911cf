// The link (document 01, "Link"), after FlowForge's src/components/link.rs and packet.rs: packets, the
// rings that hold them, and what a line does. Functions on small structs; whoever owns the state keeps
// the arrays and calls them.
#![tactic(auto)]

pub mod link;
pub mod packet;
pub mod ring;

pub use link::{
    Arrival, Delivered, Left, Line, LineValues, Transmitted, next_tick, receive, try_deliver,
    try_transmit,
};
pub use packet::{Packet, Transit, Waiting};
pub use ring::Ring;

// The sender with its three policies (document 01, "Sender"), after FlowForge's
// src/components/senders/lossy.rs. Functions on small structs; whoever owns the state keeps the array
// of senders and calls them.
#![tactic(auto)]

pub mod lossy;

pub use lossy::{Enabled, Heard, LossySender, Policy, Returned, SenderState, Sent};

// Flow records, and the mean of a list of them (document 01, "Meter"), after FlowForge's src/flow.rs
// and src/util/average.rs. The mean over a lent list is in `lent`.
#![tactic(auto)]

pub mod flow;
pub mod sums;

pub use flow::{FlowProperties, NoPacketsAcked};
pub use sums::{FlowSum, NoMean};

// The average flow meter (document 01, "Meter"), after FlowForge's src/util/meters.rs, by value. What
// changes a lent meter is in `lent`.
#![tactic(auto)]

pub mod meter;

pub use meter::{AverageFlowMeter, ChangeRefused, FlowReadError, Reception};

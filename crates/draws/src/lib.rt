// The draws (document 01, "Draws"), after FlowForge's src/util/rand.rs: xoshiro256++ seeded by
// SplitMix64, children, samples in [0, 1), the distributions and the redraw.
#![tactic(auto)]

pub mod distribution;
pub mod generator;
pub mod splitmix64;

pub use distribution::ContinuousDistribution;
pub use generator::{Child, Drawn, Rng};
pub use splitmix64::SplitMix64;

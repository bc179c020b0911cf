// The Remy network and its simulation (document 01), after FlowForge's src/networks/remy.rs and
// src/simulation.rs: the types, and no code. specs/ says what build, fit, tick and run mean, and the
// account of packets, which proofs/ proves. The code that equals them is in the crates `builder`,
// `fitness` and `simulation`; the loop of ticks is in `advance`, and what a part does in `turns`.
#![tactic(auto)]

pub mod network;
pub mod simulation;

pub use network::RemyNetwork;
pub use simulation::{Built, Head, Mark, Noted, Ran, Recorded, Simulation, TickRecord, Ticked};

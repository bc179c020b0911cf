// The toggler and the tick queue (document 01, "Toggler" and the queue of "Tick and history"), after
// FlowForge's src/components/toggler.rs and the tick queue of src/simulation.rs. Functions on small
// structs; whoever owns the state keeps the arrays and calls them.
#![tactic(auto)]

pub mod tick_queue;
pub mod toggler;

pub use tick_queue::{Picked, Queued};
pub use toggler::{Toggled, Toggler, create};

// The units of the simulation (document 01, "Quantities"): a moment, a duration, an amount in bits
// and a rate are separate types. All but the amount are doubles, and each operation rounds once.
// The types, files and operators follow FlowForge's src/quantities/.
#![tactic(auto)]

pub mod float;
pub mod information;
pub mod information_rate;
pub mod time;
pub mod time_span;

pub use information::Information;
pub use information_rate::InformationRate;
pub use time::Time;
pub use time_span::TimeSpan;

// The clauses of fit (document 01, the paragraph "Unfit" below "Stops"), in code: each function tests the
// arrays and small structs that its clauses read. `fitness` puts them together, and gives what the
// functions with a `requires` demand.
#![tactic(auto)]

pub mod counts;
pub mod packets;
pub mod queue;
pub mod senders;

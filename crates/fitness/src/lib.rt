// The fit test of a simulation (document 01, the paragraph "Unfit" below "Stops"), and the test for a
// steady one. Their parts are in `clauses`.
#![tactic(auto)]

mod soon;
mod whole;

pub use soon::is_steady;
pub use whole::is_fit;

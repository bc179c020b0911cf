// The report of a text (document 01, "The text program"): what the text program prints for it, from the
// network of its description.
#![tactic(auto)]

mod network;
pub mod run;

pub use run::{Report, Stage, report_of};

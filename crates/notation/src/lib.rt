// Numbers and words as text (document 01, "The text program"): how they are written is in specs/, the reading of one
// is here.
#![tactic(auto)]

pub mod scan;

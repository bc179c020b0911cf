// What every tick keeps together with what document 01 calls fit: no packet on a line is due later
// than the clock and that line's delay. This crate has no code: specs/ has the definition, proofs/ the
// laws.

#![tactic(auto)]

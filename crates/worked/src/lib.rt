// Document 01's worked example from the bytes of its description to the bytes of its lines: definitions
// and a proof, no code.

#![tactic(auto)]

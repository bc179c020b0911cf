// Points of document 01 and of the account that are proved. This crate has no code: each file of specs/
// is a list of claims, and the file of that name in proofs/ proves it.

#![tactic(auto)]

// Theorems about crates/definition, in specs/Claims.antt and proofs/; no code.
#![tactic(auto)]

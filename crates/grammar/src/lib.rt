// The definition of a text of typed rules, in specs/, and its laws, in proofs/; no code.
#![tactic(auto)]

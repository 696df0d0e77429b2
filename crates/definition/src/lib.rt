// The definition of the call, in specs/, and its laws, in proofs/; no code.
#![tactic(auto)]

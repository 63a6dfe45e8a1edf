// Numbers in order, for sorts: definitions (specs/) and proofs (proofs/), no code.
#![tactic(auto)]

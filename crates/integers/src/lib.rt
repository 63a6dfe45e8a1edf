// Whole numbers for proofs: definitions (specs/) and proofs (proofs/), no code. proofs/Lib.antt says what to reach for.
#![tactic(auto)]

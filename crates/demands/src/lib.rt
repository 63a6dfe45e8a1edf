// What the public calls together promise a buyer, demand by demand: statements (specs/) and their proofs (proofs/), no
// code. Each is over the calls' own promises.
#![tactic(auto)]

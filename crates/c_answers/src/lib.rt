// What the calls for C promise of the structs that they return, and the causes by their numbers. Definitions and laws.
#![tactic(auto)]

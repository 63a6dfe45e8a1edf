// What the reader and the writer of the round file (docs/SCOPE.md 5) count, as a type.
// What a file is and what the two calls promise is in specs/, the theorems about both in proofs/.
// The crate has no function.
#![tactic(auto)]

// How many boxes and plugs a file holds.
#[derive(Clone, Copy, Debug, PartialEq, Eq)]
pub struct Counts {
    pub boxes: usize,
    pub plugs: usize,
}

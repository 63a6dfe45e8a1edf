// Points in whole metres, the turn of three, extreme points and polygons: definitions in specs/, theorems in proofs/.
// The crate has no function.
#![tactic(auto)]

// A point in whole metres, east then north; also a vector.
#[derive(Clone, Copy, Debug, PartialEq, Eq)]
pub struct Point {
    pub east: i32,
    pub north: i32,
}

// A coordinate is from −SPAN to SPAN metres (specs/Points.antt: `span`).
pub const SPAN: i32 = 16000;

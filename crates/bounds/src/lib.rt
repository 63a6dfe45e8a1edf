// Whether a coordinate and a box's edges are in the span, and a box's edges in order.
#![tactic(auto)]

ghost use Rattle.std.specs.Prelude.{◌≡◌};
ghost use Rattle.rounds.specs.Refusals.{beyond, edge_beyond, edges_reversed};

use plane::SPAN;
use rounds::Box;

// Whether a coordinate is beyond ±16,000.
pub fn is_beyond(x: i32) -> bool
    ensures { result ≡ beyond x }
{
    x < -SPAN || SPAN < x
}

// Whether an edge of a box is beyond ±16,000.
pub fn has_edge_beyond(b: Box) -> bool
    ensures { result ≡ edge_beyond b }
{
    is_beyond(b.west) | (is_beyond(b.south) | (is_beyond(b.east) | is_beyond(b.north)))
}

// Whether west is over east, or south over north.
pub fn is_reversed(b: Box) -> bool
    ensures { result ≡ edges_reversed b }
{
    (b.east < b.west) | (b.north < b.south)
}

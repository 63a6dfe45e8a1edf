// Where a plug lies with respect to a polygon whose vertices are keys: strictly within, on the line, or off.
// A search of the fan from the first vertex: its steps grow with the logarithm of the vertex count.
#![tactic(auto)]

ghost use Rattle.std.specs.Prelude.{◌≤◌, length};
ghost use Rattle.locations.specs.Places.{PlaceOf};
ghost use Rattle.locations.specs.Search.{InFan, FanWedge, OfSegment};

use turns::{Key, Keys, dot_product, signed_area};

// Strictly within the hull of the points; on its line: in the hull, edge included, and not strictly within;
// off: not in the hull.
#[derive(Clone, Copy)]
pub enum Place {
    Within,
    OnLine,
    Off,
}

// Where the points of a polygon are in line from a to b, or all one: the plug is on the segment from a to b, or off.
fn place_on_segment(a: Key, b: Key, plug: Key) -> Place
    ensures { OfSegment a b plug result }
{
    if signed_area(a, b, plug) != 0 {
        return Place::Off;
    }
    if 0 < dot_product(plug, a, b) {
        return Place::Off;
    }
    Place::OnLine
}

// The index of the vertex from which the plug lies on to the next one, as seen from the first: by halving.
// (`partition_point` promises nothing of a list that is not known to be parted; this needs no more than its ends.)
fn fan_index(vertices: Keys, plug: Key) -> usize
    requires { InFan vertices.codes.now plug }
    ensures { FanWedge vertices.entry.codes.now plug result }
{
    let first = vertices.at(0);
    let mut low: usize = 1;
    let mut high = vertices.codes.len() - 1;
    while low + 1 < high {
        let middle = low + (high - low) / 2;
        let vertex = vertices.at(middle);
        if signed_area(first, vertex, plug) <= 0 {
            low = middle;
        } else {
            high = middle;
        }
    }
    low
}

// Where the plug lies. Off, where it is strictly left of one of the first vertex's two sides or of the side that
// the fan finds; else on the line, where it is on one of these three; else strictly within.
pub fn place_of(vertices: Keys, plug: Key) -> Place
    requires { 1 ≤ length vertices.codes.now }
    ensures { PlaceOf vertices.entry.codes.now plug result }
{
    let n = vertices.codes.len();
    let first = vertices.at(0);
    let last = vertices.at(n - 1);
    if n < 3 {
        return place_on_segment(first, last, plug);
    }
    let second = vertices.at(1);
    let of_first = signed_area(first, second, plug);
    if 0 < of_first {
        return Place::Off;
    }
    let of_last = signed_area(first, plug, last);
    if 0 < of_last {
        return Place::Off;
    }
    let i = fan_index(vertices, plug);
    let a = vertices.at(i);
    let b = vertices.at(i + 1);
    let of_next = signed_area(a, b, plug);
    if 0 < of_next {
        return Place::Off;
    }
    if of_first == 0 {
        return Place::OnLine;
    }
    if of_last == 0 {
        return Place::OnLine;
    }
    if of_next == 0 {
        return Place::OnLine;
    }
    Place::Within
}

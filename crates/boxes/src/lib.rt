// Flat lists: a box and a plug by its place, and an accepted list of boxes.
#![tactic(auto)]

ghost use Rattle.std.specs.Prelude.{◌≡◌, ◌*◌, ◌/◌, ◌<◌, length};
ghost use Rattle.std.proofs.Props.{props};
ghost use Rattle.plane.specs.Props.{All-prop};
ghost use Rattle.rounds.specs.Boxes.{box_at, plug_at, BoxList};

use plane::Point;
use rounds::Box;

// The box at place k of a flat list, from 0.
pub fn box_at(numbers: &[i32], k: usize) -> Box
    requires { k < length numbers.now / 4 }
    ensures { result ≡ box_at numbers.now (k * 4) }
{
    let at = k * 4;
    Box {
        west: numbers[at],
        south: numbers[at + 1],
        east: numbers[at + 2],
        north: numbers[at + 3],
    }
}

// The plug at place k of a flat list, from 0.
pub fn plug_at(numbers: &[i32], k: usize) -> Point
    requires { k < length numbers.now / 2 }
    ensures { result ≡ plug_at numbers.now (k * 2) }
{
    let at = k * 2;
    Point {
        east: numbers[at],
        north: numbers[at + 1],
    }
}

// A box list that no cause turns back, as a flat list of numbers: polygons and verdicts are worked out of it.
#[derive(Clone, Copy)]
pub struct Boxes<'a> {
    pub numbers: &'a [i32],
    ghost accepted: { BoxList numbers.now } by { Prim.hlevel (props, All-prop) },
}

impl<'a> Boxes<'a> {
    // How many boxes there are.
    pub fn len(self) -> usize
        ensures { result ≡ length self.entry.numbers.now / 4 }
    {
        self.numbers.len() / 4
    }

    // The box at place k, from 0.
    pub fn at(self, k: usize) -> Box
        requires { k < length self.numbers.now / 4 }
        ensures { result ≡ box_at self.entry.numbers.now (k * 4) }
    {
        box_at(self.numbers, k)
    }
}

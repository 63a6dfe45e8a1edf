// The corners of a list's boxes, as keys.
#![tactic(auto)]

ghost use Rattle.std.specs.Prelude.{◌/◌, ◌<◌, length};
ghost use Rattle.turns.specs.Keys.{KeyOf, point_of};
ghost use Rattle.rounds.specs.Boxes.{boxes_of};
ghost use Rattle.corners.specs.Corners.{nth_corner, Rightmost};

use boxes::Boxes;
use rounds::Corner;
use turns::Key;

// The key of that one corner of the box at place k, from 0.
pub fn corner_key(boxes: Boxes, k: usize, corner: Corner) -> Key
    requires { k < length boxes.numbers.now / 4 }
    ensures { KeyOf (nth_corner corner (boxes_of boxes.entry.numbers.now) k) result }
{
    Key::new(boxes.at(k).corner(corner))
}

// The corner of any box that is furthest right of the way from one key's point to another's: the lowest one along the
// direction to the left of it.
pub fn rightmost_corner(from: Key, to: Key) -> Corner
    ensures { Rightmost (point_of from) (point_of to) result }
{
    let east = turns::north_between(to, from);
    let north = turns::east_between(from, to);
    if 0 <= east {
        if 0 <= north {
            return Corner::SouthWest;
        }
        return Corner::NorthWest;
    }
    if 0 <= north {
        return Corner::SouthEast;
    }
    Corner::NorthEast
}

// Whether a line through the plug has every box strictly on one side of it, so that the plug is outside: tried in one
// direction, square to which the boxes are seen.
#![tactic(auto)]

ghost use Rattle.turns.specs.Keys.{point_of};
ghost use Rattle.rounds.specs.Boxes.{boxes_of};
ghost use Rattle.separating_lines.specs.Separating.{SeparatedIf};

use boxes::Boxes;
use cones::Cone;
use turns::Key;

// Whether the line through the plug in the direction from a to b has every corner of every box strictly right of it. Of
// each box, the corner furthest left tells.
fn is_left_of_all(boxes: Boxes, a: Key, b: Key, plug: Key) -> bool
    ensures { SeparatedIf (boxes_of boxes.entry.numbers.now) (point_of plug) result }
{
    let line = lines::line_through(a, b);
    let limit = lines::side_of(line, plug);
    let corner = corners::rightmost_corner(b, a);
    for k in 0..boxes.len() {
        let key = corners::corner_key(boxes, k, corner);
        if limit <= lines::side_of(line, key) {
            return false;
        }
    }
    true
}

// Whether the line through the plug in the direction of the chord of a wedge separates it from all boxes.
pub fn is_separated(boxes: Boxes, cone: Cone, plug: Key) -> bool
    ensures { SeparatedIf (boxes_of boxes.entry.numbers.now) (point_of plug) result }
{
    let Cone::Wedge(a, b) = cone else {
        return false;
    };
    is_left_of_all(boxes, a.key, b.key, plug)
}

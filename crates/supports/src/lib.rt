// What the corners of boxes tell the first driver of a plug, by how they are seen from the plug (crate views): a
// direction that shows that the plug is not strictly inside, or none where it is.
#![tactic(auto)]

ghost use Rattle.std.specs.Prelude.{◌≡◌};
ghost use Rattle.turns.specs.Keys.{IsKey, point_of};
ghost use Rattle.rounds.specs.Boxes.{boxes_of, corners_of};
ghost use Rattle.cones.specs.Cones.{Named, ConeSays};
ghost use Rattle.views.specs.Views.{CornerViewSays};
ghost use Rattle.supports.specs.Supports.{square_to, SupportAt, TriangleSays, SupportSays, SupportBy};
ghost use Rattle.supports.specs.Supporting.{support_of_cone, support_of_corner, support_of};

use boxes::Boxes;
use cones::{Cone, CornerKey};
use rounds::{Corner, Direction};
use turns::Key;
use views::View;

// The direction square to the ray from the plug through a.
fn square_to(a: CornerKey, corner: Corner, plug: Key) -> Direction
    ensures value { result ≡ square_to (point_of a.key) corner (point_of plug) }
    ensures keys { IsKey a.key × IsKey plug }
{
    let east = turns::north_between(plug, a.key);
    let north = turns::east_between(a.key, plug);
    Direction {
        corner,
        east,
        north,
    }
}

// What the cone of that one corner of every box tells the first driver: no point is ahead of the direction square to
// its first ray.
fn support_by(cone: &Cone, corner: Corner, plug: Key) -> Option<Direction>
    ensures exact { result ≡ support_of_cone plug cone.now corner }
    ensures supports { SupportBy (point_of plug) cone.now corner result }
{
    match *cone {
        Cone::Nothing => Some(Direction {
            corner,
            east: 1,
            north: 0,
        }),
        Cone::Ray(a) | Cone::Line(a, _) | Cone::Wedge(a, _) | Cone::Half(a, _) => {
            Some(square_to(a, corner, plug))
        }
        Cone::Around(..) => None,
    }
}

// Whether the plug is strictly inside the triangle of that one corner of three boxes, which are known by their numbers.
fn is_in_triangle(
    boxes: Boxes,
    corner: Corner,
    a: CornerKey,
    b: CornerKey,
    c: CornerKey,
    plug: Key,
) -> bool
    requires { Named (boxes_of boxes.numbers.now) a × Named (boxes_of boxes.numbers.now) b
        × Named (boxes_of boxes.numbers.now) c }
    ensures { TriangleSays (boxes_of boxes.entry.numbers.now) (point_of plug) corner result }
{
    let u = corners::corner_key(boxes, a.number as usize - 1, corner);
    let v = corners::corner_key(boxes, b.number as usize - 1, corner);
    let w = corners::corner_key(boxes, c.number as usize - 1, corner);
    turns::turns_left(plug, u, v) & (turns::turns_left(plug, v, w) & turns::turns_left(plug, w, u))
}

// What that one corner of every box tells the first driver. Where the south-west corners of three boxes are round the
// plug, the same boxes are tried first.
fn support_at(boxes: Boxes, corner: Corner, plug: Key, southwest: &Cone) -> Option<Direction>
    requires { ConeSays (boxes_of boxes.numbers.now) (corners_of Corner.SouthWest (boxes_of boxes.numbers.now))
        (point_of plug) southwest.now }
    ensures exact { result ≡ support_of_corner plug corner (boxes_of boxes.entry.numbers.now) }
    ensures supports { SupportAt (boxes_of boxes.entry.numbers.now) (point_of plug) corner result }
{
    if let Cone::Around(a, b, c) = *southwest {
        if is_in_triangle(boxes, corner, a, b, c, plug) {
            return None;
        }
    }
    support_by(&views::view_of(boxes, corner, plug).cone, corner, plug)
}

// What the four corners of the boxes tell the first driver, where the south-west corners' view is known.
pub fn support_of(boxes: Boxes, plug: Key, view: &View) -> Option<Direction>
    requires { CornerViewSays (boxes_of boxes.numbers.now) Corner.SouthWest (point_of plug) view.now }
    ensures exact { result ≡ support_of plug (boxes_of boxes.entry.numbers.now) view.now }
    ensures supports { SupportSays (boxes_of boxes.entry.numbers.now) (point_of plug) result }
{
    let southwest = &view.cone;
    if let Some(direction) = support_by(southwest, Corner::SouthWest, plug) {
        return Some(direction);
    }
    for corner in [Corner::SouthEast, Corner::NorthEast, Corner::NorthWest] {
        if let Some(direction) = support_at(boxes, corner, plug, southwest) {
            return Some(direction);
        }
    }
    None
}

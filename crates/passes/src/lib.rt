// Boxes whose corners leave the cone of the points so far as it is (crate cones), passed over one after another: in a
// wedge or on a line that does not become wider. The boxes and the plug are two parameters here and in crates above,
// since a corner is read of the boxes alone and a turn is seen from the plug alone.
#![tactic(auto)]

ghost use Rattle.std.specs.Prelude.{◌/◌, ◌≤◌, length};
ghost use Rattle.turns.specs.Keys.{point_of};
ghost use Rattle.rounds.specs.Boxes.{boxes_of};
ghost use Rattle.passes.specs.Passes.{Passes, PassesLine};
ghost use Rattle.passes.specs.Keeping.{KeepsBoxes, KeepsLine};

use boxes::Boxes;
use cones::{Cone, CornerKey};
use rounds::Corner;
use turns::Key;

// The corners of a box that are looked at: one of them, or all four. A slice would ask of callers that it is not empty.
#[derive(Clone, Copy)]
pub enum CornerSet {
    One(Corner),
    Four,
}

// The first place from k on where that one corner is not strictly inside the wedge, or the number of boxes.
fn pass_corners(
    boxes: Boxes,
    corner: Corner,
    k: usize,
    a: CornerKey,
    b: CornerKey,
    plug: Key,
) -> usize
    requires { k ≤ length boxes.numbers.now / 4 }
    ensures keeps { KeepsBoxes plug (Cone.Wedge a b) (CornerSet.One corner)
        (boxes_of boxes.entry.numbers.now) k result }
    ensures passes { Passes (point_of plug) (Cone.Wedge a b) (CornerSet.One corner)
        (boxes_of boxes.entry.numbers.now) k result }
{
    for i in k..boxes.len() {
        let v = corners::corner_key(boxes, i, corner);
        if !turns::turns_right(plug, v, a.key) {
            return i;
        }
        if !turns::turns_right(plug, b.key, v) {
            return i;
        }
    }
    boxes.len()
}

// The first place from k on where a corner is not strictly inside the wedge, or the number of boxes. Of each box, the
// corner furthest right of the one ray and that furthest left of the other tell.
fn pass_boxes(boxes: Boxes, k: usize, a: CornerKey, b: CornerKey, plug: Key) -> usize
    requires { k ≤ length boxes.numbers.now / 4 }
    ensures keeps { KeepsBoxes plug (Cone.Wedge a b) CornerSet.Four (boxes_of boxes.entry.numbers.now) k result }
    ensures passes { Passes (point_of plug) (Cone.Wedge a b) CornerSet.Four
        (boxes_of boxes.entry.numbers.now) k result }
{
    let at_a = corners::rightmost_corner(plug, a.key);
    let at_b = corners::rightmost_corner(b.key, plug);
    for i in k..boxes.len() {
        let v = corners::corner_key(boxes, i, at_a);
        if !turns::turns_left(plug, a.key, v) {
            return i;
        }
        let w = corners::corner_key(boxes, i, at_b);
        if !turns::turns_left(b.key, plug, w) {
            return i;
        }
    }
    boxes.len()
}

// The first place from k on where that one corner is off the line or the plug itself, or the number of boxes.
#[tactic(auto, using(crate::proofs::Keeping::line_steps))]
fn pass_line(boxes: Boxes, corner: Corner, k: usize, a: CornerKey, plug: Key) -> usize
    requires { k ≤ length boxes.numbers.now / 4 }
    ensures keeps { KeepsLine plug a (CornerSet.One corner) (boxes_of boxes.entry.numbers.now) k result }
    ensures passes { PassesLine (point_of plug) a (CornerSet.One corner) (boxes_of boxes.entry.numbers.now) k result }
{
    for i in k..boxes.len() {
        let v = corners::corner_key(boxes, i, corner);
        if turns::signed_area(plug, a.key, v) != 0 {
            return i;
        }
        if v == plug {
            return i;
        }
    }
    boxes.len()
}

// A place from k on, such that those corners of the boxes up to there leave the cone as it is. On a line, none is
// passed where all four are looked at.
pub fn pass_cone(boxes: Boxes, set: CornerSet, k: usize, cone: &Cone, plug: Key) -> usize
    requires { k ≤ length boxes.numbers.now / 4 }
    ensures keeps { KeepsBoxes plug cone.now set (boxes_of boxes.entry.numbers.now) k result }
    ensures passes { Passes (point_of plug) cone.now set (boxes_of boxes.entry.numbers.now) k result }
{
    match (*cone, set) {
        (Cone::Line(a, _), CornerSet::One(corner)) => pass_line(boxes, corner, k, a, plug),
        (Cone::Wedge(a, b), CornerSet::One(corner)) => pass_corners(boxes, corner, k, a, b, plug),
        (Cone::Wedge(a, b), CornerSet::Four) => pass_boxes(boxes, k, a, b, plug),
        _ => k,
    }
}

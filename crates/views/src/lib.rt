// The corners of boxes as seen from a plug: one pass over the boxes widens the cone of the points so far (crate cones)
// by a corner of each or by all four, from whatever view it starts. No polygon is made, and there is no scratch.
#![tactic(auto)]

ghost use Rattle.std.specs.Prelude.{◌≡◌, suc, ◌/◌, ◌<◌, length};
ghost use Rattle.turns.specs.Keys.{point_of};
ghost use Rattle.rounds.specs.Boxes.{boxes_of};
ghost use Rattle.cones.specs.Cones.{CornerOf};
ghost use Rattle.cones.specs.Wider.{numbered};
ghost use Rattle.passes.specs.Passes.{nth_box, names_in};
ghost use Rattle.views.specs.Views.{MetOn, CornerViewSays, nth_name, LooksOver};
ghost use Rattle.views.specs.Looking.{met_with, looked_over, view_of};

use boxes::Boxes;
use cones::{Cone, CornerKey};
use passes::CornerSet;
use rounds::Corner;
use turns::Key;

// The points so far, as seen from the plug.
#[derive(Clone, Copy)]
pub struct View {
    pub cone: Cone,
    pub met: Option<CornerKey>,
}

// That one corner of the box at place k, from 0.
fn nth_corner(boxes: Boxes, k: usize, corner: Corner) -> CornerKey
    requires { k < length boxes.numbers.now / 4 }
    ensures exact { result ≡ numbered (suc k) (nth_box (boxes_of boxes.entry.numbers.now) k) corner }
    ensures is_corner { CornerOf (boxes_of boxes.entry.numbers.now) corner k result }
{
    let key = corners::corner_key(boxes, k, corner);
    let number = (k + 1) as u32;
    CornerKey {
        key,
        number,
        corner,
    }
}

// Where the plug is met among the points so far and one more.
fn meet(met: Option<CornerKey>, v: &CornerKey, plug: Key) -> Option<CornerKey>
    ensures exact { result ≡ met_with plug met v.now }
    ensures met_on { MetOn (point_of plug) met v.now result }
{
    if v.key == plug {
        return Some(*v);
    }
    met
}

// How many corners of a box are looked at.
fn corner_count(set: CornerSet) -> usize
    ensures { result ≡ length (names_in set) }
{
    match set {
        CornerSet::One(_) => 1,
        CornerSet::Four => 4,
    }
}

// One of the corners that are looked at by its place, from 0.
fn nth_name(set: CornerSet, j: usize) -> Corner
    requires { j < length (names_in set) }
    ensures { result ≡ nth_name set j }
{
    match set {
        CornerSet::One(corner) => corner,
        CornerSet::Four => Corner::ALL[j],
    }
}

// The start's points and those corners of every box, as seen from the plug; no further than it is strictly inside.
// One loop with a place within the box: a loop over a box's corners in the loop over the boxes took half as long again.
pub fn look_over(boxes: Boxes, set: CornerSet, plug: Key, start: View) -> View
    ensures exact { result ≡ looked_over plug set 1 start (boxes_of boxes.entry.numbers.now) }
    ensures looks_over { LooksOver (boxes_of boxes.entry.numbers.now) (point_of plug) start set result }
{
    let count = boxes.len();
    let each = corner_count(set);
    let mut cone = start.cone;
    let mut met = start.met;
    let mut k = passes::pass_cone(boxes, set, 0, &cone, plug);
    let mut j: usize = 0;
    while k < count {
        let corner = nth_name(set, j);
        let v = nth_corner(boxes, k, corner);
        met = meet(met, &v, plug);
        cone = cones::widen(cone, v, plug);
        j += 1;
        if j == each {
            if let Cone::Around(_, _, _) = cone {
                return View { cone, met };
            }
            j = 0;
            k = passes::pass_cone(boxes, set, k + 1, &cone, plug);
        }
    }
    View { cone, met }
}

// That one corner of every box, as seen from the plug.
pub fn view_of(boxes: Boxes, corner: Corner, plug: Key) -> View
    ensures exact { result ≡ view_of plug corner (boxes_of boxes.entry.numbers.now) }
    ensures says { CornerViewSays (boxes_of boxes.entry.numbers.now) corner (point_of plug) result }
{
    let nothing = View {
        cone: Cone::Nothing,
        met: None,
    };
    look_over(boxes, CornerSet::One(corner), plug, nothing)
}

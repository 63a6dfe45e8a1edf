// The cone that some points span, as seen from a plug, widened point by point. The points are corners of boxes, as
// keys; those that a cone holds keep their box number and corner name.
#![tactic(auto)]

ghost use Rattle.std.specs.Prelude.{◌≡◌, pos};
ghost use Rattle.plane.specs.Points.{signed_area};
ghost use Rattle.turns.specs.Keys.{point_of};
ghost use Rattle.turns.specs.declared.Turn.TheVariants.{Straight};
ghost use Rattle.cones.specs.Cones.{Widened};
ghost use Rattle.cones.specs.Wider.{are_opposite, ray_by, cone_with};

use rounds::Corner;
use turns::{Key, Turn};

// A corner of a box of the list: its key, the box's number from 1, and the corner's name.
#[derive(Clone, Copy)]
pub struct CornerKey {
    pub key: Key,
    // Not a usize: with one, a verdict on 16 boxes took half as long again.
    pub number: u32,
    pub corner: Corner,
}

// The cone of the points so far, as seen from the plug: every point is the plug; all are on the ray through a point;
// on the line through two on opposite sides of the plug; from the ray through one to the ray through another, left of
// it by less than half a turn; left of the line through two on opposite sides, or on it; or the plug is strictly
// inside, and in the triangle of three.
#[derive(Clone, Copy)]
pub enum Cone {
    Nothing,
    Ray(CornerKey),
    Line(CornerKey, CornerKey),
    Wedge(CornerKey, CornerKey),
    Half(CornerKey, CornerKey),
    Around(CornerKey, CornerKey, CornerKey),
}

// The cone where every point so far is the plug.
#[tactic(auto, using(crate::proofs::Wider::found_says))]
fn widen_nothing(v: CornerKey, plug: Key) -> Cone
    ensures exact { result ≡ cone_with plug Cone.Nothing v }
    ensures widened { Widened (point_of plug) Cone.Nothing v result }
{
    if v.key == plug {
        return Cone::Nothing;
    }
    Cone::Ray(v)
}

// The cone of a ray and of one more point in line with it.
#[tactic(auto, using(crate::proofs::Wider::in_line_says))]
fn widen_in_line(a: CornerKey, v: CornerKey, plug: Key) -> Cone
    ensures exact { result ≡ ray_by Straight (are_opposite plug a v) a v }
    ensures widened { signed_area (point_of plug) (point_of a.key) (point_of v.key) ≡ pos 0
        → Widened (point_of plug) (Cone.Ray a) v result }
{
    if turns::dot_product(plug, a.key, v.key) < 0 {
        return Cone::Line(a, v);
    }
    Cone::Ray(a)
}

// The cone of a ray and of one more point.
#[tactic(auto, using(crate::proofs::Wider::found_says))]
fn widen_ray(a: CornerKey, v: CornerKey, plug: Key) -> Cone
    ensures exact { result ≡ cone_with plug (Cone.Ray a) v }
    ensures widened { Widened (point_of plug) (Cone.Ray a) v result }
{
    match turns::turn_of(plug, a.key, v.key) {
        Turn::Right => Cone::Wedge(v, a),
        Turn::Straight => widen_in_line(a, v, plug),
        Turn::Left => Cone::Wedge(a, v),
    }
}

// The cone of a line and of one more point. Not one function with `widen_ray`: no arm is the same.
#[tactic(auto, using(crate::proofs::Wider::found_says))]
fn widen_line(a: CornerKey, b: CornerKey, v: CornerKey, plug: Key) -> Cone
    ensures exact { result ≡ cone_with plug (Cone.Line a b) v }
    ensures widened { Widened (point_of plug) (Cone.Line a b) v result }
{
    match turns::turn_of(plug, a.key, v.key) {
        Turn::Right => Cone::Half(b, a),
        Turn::Straight => Cone::Line(a, b),
        Turn::Left => Cone::Half(a, b),
    }
}

// The cone of a wedge and of one more point: where it is right of the one ray or left of the other, it takes its place.
// Nine arms: with arms joined by `|`, or one match of both turns, the proof of `exact` did not close.
#[tactic(auto, using(crate::proofs::Wider::found_says))]
fn widen_wedge(a: CornerKey, b: CornerKey, v: CornerKey, plug: Key) -> Cone
    ensures exact { result ≡ cone_with plug (Cone.Wedge a b) v }
    ensures widened { Widened (point_of plug) (Cone.Wedge a b) v result }
{
    let from_a = turns::turn_of(plug, a.key, v.key);
    let to_b = turns::turn_of(plug, v.key, b.key);
    match from_a {
        Turn::Right => match to_b {
            Turn::Right => Cone::Around(a, b, v),
            Turn::Straight => Cone::Half(v, b),
            Turn::Left => Cone::Wedge(v, b),
        },
        Turn::Straight => match to_b {
            Turn::Right => Cone::Half(a, v),
            Turn::Straight => Cone::Wedge(a, b),
            Turn::Left => Cone::Wedge(a, b),
        },
        Turn::Left => match to_b {
            Turn::Right => Cone::Wedge(a, v),
            Turn::Straight => Cone::Wedge(a, b),
            Turn::Left => Cone::Wedge(a, b),
        },
    }
}

// The cone of a half-plane and of one more point.
#[tactic(auto, using(crate::proofs::Wider::found_says))]
fn widen_half(a: CornerKey, b: CornerKey, v: CornerKey, plug: Key) -> Cone
    ensures exact { result ≡ cone_with plug (Cone.Half a b) v }
    ensures widened { Widened (point_of plug) (Cone.Half a b) v result }
{
    match turns::turn_of(plug, a.key, v.key) {
        Turn::Right => Cone::Around(a, b, v),
        Turn::Straight | Turn::Left => Cone::Half(a, b),
    }
}

// The cone of the points so far and of one more.
#[tactic(auto, using(crate::proofs::Wider::found_says))]
pub fn widen(cone: Cone, v: CornerKey, plug: Key) -> Cone
    ensures exact { result ≡ cone_with plug cone v }
    ensures widened { Widened (point_of plug) cone v result }
{
    match cone {
        Cone::Nothing => widen_nothing(v, plug),
        Cone::Ray(a) => widen_ray(a, v, plug),
        Cone::Line(a, b) => widen_line(a, b, v, plug),
        Cone::Wedge(a, b) => widen_wedge(a, b, v, plug),
        Cone::Half(a, b) => widen_half(a, b, v, plug),
        Cone::Around(a, b, c) => Cone::Around(a, b, c),
    }
}

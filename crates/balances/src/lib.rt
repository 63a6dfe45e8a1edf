// What the corners of boxes tell the second driver of a plug, by how they are seen from the plug (crate views): three
// entries that balance, or none where a direction has all corners strictly behind the plug.
#![tactic(auto)]

ghost use Rattle.std.specs.Prelude.{◌≡◌, [], ◌∷◌};
ghost use Rattle.turns.specs.Keys.{point_of};
ghost use Rattle.rounds.specs.Boxes.{boxes_of};
ghost use Rattle.cones.specs.Cones.{entry_of, Known};
ghost use Rattle.views.specs.Views.{CornerViewSays};
ghost use Rattle.balances.specs.Balances.{BetweenCorners, InTriangle};
ghost use Rattle.balances.specs.Balances.{BalanceSays, BalanceAmong, BalanceByCone, BalanceBy};
ghost use Rattle.balances.specs.Balancing.{between_two, among_three, balance_of_cone, balance_of_view, balance_of};

use boxes::Boxes;
use cones::{Cone, CornerKey};
use passes::CornerSet;
use rounds::{Corner, Entry};
use turns::Key;
use views::View;

// The three entries of a reason.
#[derive(Clone, Copy, Debug, PartialEq, Eq)]
pub struct Entries {
    pub first: Entry,
    pub second: Entry,
    pub third: Entry,
}

// The entry that names the corner, with a weight.
fn entry_of(v: &CornerKey, weight: u32) -> Entry
    ensures { result ≡ entry_of v.now weight }
{
    let corner = v.corner;
    Entry {
        number: v.number as usize,
        corner,
        weight,
    }
}

// Two points on opposite sides of the plug, each with the plug's distance from the other for its weight.
fn balance_between(a: CornerKey, b: CornerKey, plug: Key) -> Option<Entries>
    requires { BetweenCorners (point_of plug) a b }
    ensures exact { result ≡ between_two plug a b }
    ensures balances { BalanceAmong (point_of plug) (a ∷ b ∷ []) result }
{
    let at_a = turns::positive_dot_product(b.key, a.key, plug);
    let at_b = turns::positive_dot_product(a.key, b.key, plug);
    Some(Entries {
        first: entry_of(&a, at_a),
        second: entry_of(&b, at_b),
        third: entry_of(&a, 0),
    })
}

// Three points with the plug in their triangle, each with the area of the other two and the plug for its weight.
fn balance_in_triangle(a: CornerKey, b: CornerKey, c: CornerKey, plug: Key) -> Option<Entries>
    requires { InTriangle (point_of plug) a b c }
    ensures exact { result ≡ among_three plug a b c }
    ensures balances { BalanceAmong (point_of plug) (a ∷ b ∷ c ∷ []) result }
{
    let at_a = turns::positive_area(plug, b.key, c.key);
    let at_b = turns::positive_area(plug, c.key, a.key);
    let at_c = turns::positive_area(plug, a.key, b.key);
    Some(Entries {
        first: entry_of(&a, at_a),
        second: entry_of(&b, at_b),
        third: entry_of(&c, at_c),
    })
}

// What the cone tells the second driver, if no point is the plug.
fn balance_by_cone(cone: Cone, plug: Key) -> Option<Entries>
    requires { Known (point_of plug) cone }
    ensures exact { result ≡ balance_of_cone plug cone }
    ensures balances { BalanceByCone (point_of plug) cone result }
{
    match cone {
        Cone::Nothing | Cone::Ray(_) | Cone::Wedge(..) => None,
        Cone::Line(a, b) | Cone::Half(a, b) => balance_between(a, b, plug),
        Cone::Around(a, b, c) => balance_in_triangle(a, b, c, plug),
    }
}

// What the view tells the second driver.
fn balance_by(view: &View, plug: Key) -> Option<Entries>
    requires { Known (point_of plug) view.now.cone }
    ensures exact { result ≡ balance_of_view plug view.now }
    ensures balances { BalanceBy (point_of plug) view.now result }
{
    if let Some(v) = view.met {
        return Some(Entries {
            first: entry_of(&v, 1),
            second: entry_of(&v, 0),
            third: entry_of(&v, 0),
        });
    }
    balance_by_cone(view.cone, plug)
}

// What all corners of the boxes tell the second driver, where the south-west corners' view is known.
pub fn balance_of(boxes: Boxes, plug: Key, view: &View) -> Option<Entries>
    requires { CornerViewSays (boxes_of boxes.numbers.now) Corner.SouthWest (point_of plug) view.now }
    ensures exact { result ≡ balance_of plug (boxes_of boxes.entry.numbers.now) view.now }
    ensures balances { BalanceSays (boxes_of boxes.entry.numbers.now) (point_of plug) result }
{
    if let Some(entries) = balance_by(view, plug) {
        return Some(entries);
    }
    let all = views::look_over(boxes, CornerSet::Four, plug, *view);
    balance_by(&all, plug)
}

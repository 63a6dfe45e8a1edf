// The keys of boxes' corners as lists: of one name, of two, and those that the outer polygon's upper and lower chain
// are made of.
#![tactic(auto)]

ghost use Rattle.std.specs.Prelude.{◌++◌, ◌+◌, ◌/◌, ◌≤◌, length};
ghost use Rattle.turns.specs.Keys.{AllKeys};
ghost use Rattle.orders.specs.Order.{get};
ghost use Rattle.turns.specs.Reflection.{reflected};
ghost use Rattle.rounds.specs.Boxes.{boxes_of, corners_of, all_corners};
ghost use Rattle.corner_lists.specs.KeyLists.{KeysOf};
ghost use Rattle.corner_lists.specs.ChainKeys.{Reflects, PointEnds, ChainRoom, ChainKeys};

use boxes::Boxes;
use codes::Coded;
use extremes::Ends;
use rounds::Corner;
use turns::{Key, Keys};

// Writes the keys of that one corner of every box to the front of keys.
#[inline(always)]
pub fn put_corner_keys(boxes: Boxes, corner: Corner, keys: &mut [u32])
    requires { length boxes.numbers.now / 4 ≤ length keys.old }
    ensures { KeysOf (corners_of corner (boxes_of boxes.entry.numbers.now)) keys.new }
{
    for (k, key) in keys[..boxes.len()].iter_mut().enumerate() {
        *key = corners::corner_key(boxes, k, corner).code();
    }
}

// Writes the keys of one corner of every box to the front of keys, and those of another behind them.
#[inline(always)]
pub fn put_two_corners(boxes: Boxes, first: Corner, second: Corner, keys: &mut [u32])
    requires { length boxes.numbers.now / 4 + length boxes.numbers.now / 4 ≤ length keys.old }
    ensures { KeysOf
        (corners_of first (boxes_of boxes.entry.numbers.now) ++ corners_of second (boxes_of boxes.entry.numbers.now))
        keys.new }
{
    let n = boxes.len();
    put_corner_keys(boxes, first, keys);
    put_corner_keys(boxes, second, &mut keys[n..]);
}

// The least key of all corners, which is that of a south-western one, and the greatest, that of a north-eastern one.
// What keys holds is lost.
// PointEnds stays a clause: as a ghost field of the ends and their boxes it would be truncated, and opened at each use.
pub fn find_corner_ends(boxes: Boxes, keys: &mut [u32]) -> Ends
    requires { length boxes.numbers.now / 4 ≤ length keys.old }
    ensures { PointEnds (all_corners (boxes_of boxes.entry.numbers.now)) result.first result.last }
{
    let n = boxes.len();
    put_corner_keys(boxes, Corner::SouthWest, keys);
    let least = extremes::find_ends(&keys[..n]);
    put_corner_keys(boxes, Corner::NorthEast, keys);
    let most = extremes::find_ends(&keys[..n]);
    Ends {
        first: Key::from_code(least.first),
        last: Key::from_code(most.last),
    }
}

// Reflects keys through the datum.
fn reflect_keys(keys: &mut [u32])
    requires { AllKeys (get keys.old) (length keys.old) }
    ensures { Reflects keys.old keys.new (length keys.old) }
{
    for key in keys.iter_mut() {
        *key = Key::from_code(*key).reflected().code();
    }
}

// The keys for the upper chain of all corners between their ends, in order, at the front of list: of the north-western
// and the north-eastern corners. What keys and scratch hold is lost. (Scratch is slices, as in outlines: `ChainRoom`.)
pub fn upper_keys(
    boxes: Boxes,
    ends: &Ends,
    list: &mut [u32],
    keys: &mut [u32],
    scratch: &mut [u32],
) -> usize
    requires point_ends { PointEnds (all_corners (boxes_of boxes.numbers.now)) ends.now.first ends.now.last }
    requires chain_room { ChainRoom (length boxes.numbers.now / 4) list.old keys.old scratch.old }
    ensures { ChainKeys (λ k. k) (all_corners (boxes_of boxes.entry.numbers.now)) (length boxes.entry.numbers.now / 4)
        ends.now.first ends.now.last list.new result }
{
    let n = boxes.len();
    put_two_corners(boxes, Corner::NorthWest, Corner::NorthEast, keys);
    let (before, behind) = keys[..n + n].split_at(n);
    quarters::upper_list(
        Keys { codes: before },
        Keys { codes: behind },
        ends,
        list,
        scratch,
    )
}

// The same for the lower chain: the keys, reflected, of the south-eastern and the south-western corners.
// One function for both chains would have to be told whether to reflect the keys, and so is no plainer.
pub fn lower_keys(
    boxes: Boxes,
    ends: &Ends,
    list: &mut [u32],
    keys: &mut [u32],
    scratch: &mut [u32],
) -> usize
    requires point_ends { PointEnds (all_corners (boxes_of boxes.numbers.now)) ends.now.first ends.now.last }
    requires chain_room { ChainRoom (length boxes.numbers.now / 4) list.old keys.old scratch.old }
    ensures { ChainKeys reflected (all_corners (boxes_of boxes.entry.numbers.now)) (length boxes.entry.numbers.now / 4)
        (reflected ends.now.last) (reflected ends.now.first) list.new result }
{
    let n = boxes.len();
    put_two_corners(boxes, Corner::SouthEast, Corner::SouthWest, keys);
    let both = &mut keys[..n + n];
    reflect_keys(both);
    let (before, behind) = both.split_at(n);
    quarters::upper_list(
        Keys { codes: before },
        Keys { codes: behind },
        &ends.reflected(),
        list,
        scratch,
    )
}

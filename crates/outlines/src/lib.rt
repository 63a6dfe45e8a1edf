// The outer polygon and the corner polygons of a box list, as the keys of their vertices, in lent scratch.
// What stands at the front of a lent buffer is counted, not given back as a slice, as in crate chains.
#![tactic(auto)]

ghost use Rattle.std.specs.Prelude.{◌≡◌, ◌+◌, ◌*◌, ◌/◌, ◌≤◌, ◌<◌, length, min};
ghost use Rattle.rounds.specs.Boxes.{boxes_of, corners_of, all_corners};
ghost use Rattle.corner_lists.specs.KeyLists.{KeysOf};
ghost use Rattle.corner_lists.specs.ChainKeys.{PointEnds};
ghost use Rattle.outlines.specs.Outlines.{ScratchFor, OuterRoom, PolygonKeys, PolygonBehind, TwoBehind};
ghost use Rattle.outlines.specs.RoundPolygons.{RoundPolygons};

use boxes::Boxes;
use codes::Coded;
use extremes::Ends;
use rounds::Corner;
use turns::Keys;

// Scratch for the keys of two corners of each of the most boxes that a round has, and a little more, so that each chain
// ends in it. It is lent as two slices: a struct of them would have to promise at each call that their lengths stay.
pub const MOST_KEYS: usize = 2052;

// How many vertices each of the five polygons of a round has, the outer one beside the four that a call answers. Their
// keys stand one behind another, in this order.
#[derive(Clone, Copy)]
pub struct RoundCounts {
    pub outer: usize,
    pub southwest: usize,
    pub southeast: usize,
    pub northeast: usize,
    pub northwest: usize,
}

// The corner polygon of that one corner of every box: the first of vertices, as many as are returned.
// What the scratch holds is lost.
#[inline(always)]
pub fn corner_outline(
    boxes: Boxes,
    corner: Corner,
    vertices: &mut [u32],
    keys: &mut [u32],
    mirror: &mut [u32],
) -> usize
    requires room { length boxes.numbers.now / 4 ≤ length vertices.old }
    requires scratch_for { ScratchFor (length boxes.numbers.now / 4) keys.old mirror.old }
    ensures { PolygonKeys (corners_of corner (boxes_of boxes.entry.numbers.now)) vertices.new result }
{
    let n = boxes.len();
    corner_lists::put_corner_keys(boxes, corner, keys);
    hulls::hull(&mut keys[..n], vertices, mirror)
}

// Writes the keys of all four corners of all boxes to the front of keys.
fn put_all_corners(boxes: Boxes, keys: &mut [u32])
    requires { length boxes.numbers.now ≤ length keys.old }
    ensures { KeysOf (all_corners (boxes_of boxes.entry.numbers.now)) keys.new }
{
    let half = 2 * boxes.len();
    corner_lists::put_two_corners(boxes, Corner::SouthWest, Corner::SouthEast, keys);
    corner_lists::put_two_corners(
        boxes,
        Corner::NorthEast,
        Corner::NorthWest,
        &mut keys[half..],
    );
}

// The outer polygon, from all corners, beside `corner_outline`, since one function would take what puts the keys as a
// closure with its contract: the first of vertices, as many as are returned. What the scratch holds is lost.
pub fn outer_outline(
    boxes: Boxes,
    vertices: &mut [u32],
    keys: &mut [u32],
    mirror: &mut [u32],
) -> usize
    requires room { length boxes.numbers.now ≤ length vertices.old }
    requires scratch_for { ScratchFor (length boxes.numbers.now) keys.old mirror.old }
    ensures { PolygonKeys (all_corners (boxes_of boxes.entry.numbers.now)) vertices.new result }
{
    let n = boxes.numbers.len();
    put_all_corners(boxes, keys);
    hulls::hull(&mut keys[..n], vertices, mirror)
}

// The outer polygon from the least key of all corners to the greatest, its ends: the upper chain without its last
// vertex, and then the lower one without its last, which is made, reflected, in keys. (`hulls::two_chains` has both
// lists of keys beforehand; here the second takes the place of the first, and so is made between the two chains.)
fn outer_chains(
    boxes: Boxes,
    ends: &Ends,
    vertices: &mut [u32],
    keys: &mut [u32],
    list: &mut [u32],
) -> usize
    requires point_ends { PointEnds (all_corners (boxes_of boxes.numbers.now)) ends.now.first ends.now.last
        × (ends.now.first < ends.now.last) }
    requires outer_room { OuterRoom (length boxes.numbers.now / 4) vertices.old keys.old list.old }
    ensures { PolygonKeys (all_corners (boxes_of boxes.entry.numbers.now)) vertices.new result }
{
    let u = corner_lists::upper_keys(boxes, ends, list, keys, vertices);
    let ku = chains::upper_chain(ends, Keys { codes: &list[..u] }, vertices);
    let v = corner_lists::lower_keys(boxes, ends, list, keys, &mut vertices[ku..]);
    let kl = chains::upper_chain(&ends.reflected(), Keys { codes: &list[..v] }, keys);
    let chain = &keys[..kl - 1];
    hulls::append_reflected(Keys { codes: chain }, vertices, ku - 1);
    ku - 1 + (kl - 1)
}

// The outer polygon, by quarters: the first of vertices, as many as are returned. What the scratch holds is lost.
// (`hulls::polygon` begins alike: one function for both would take the chains as a closure, and be no plainer.)
pub fn quartered_outline(
    boxes: Boxes,
    vertices: &mut [u32],
    keys: &mut [u32],
    list: &mut [u32],
) -> usize
    requires outer_room { OuterRoom (length boxes.numbers.now / 4) vertices.old keys.old list.old }
    ensures { PolygonKeys (all_corners (boxes_of boxes.entry.numbers.now)) vertices.new result }
{
    let ends = corner_lists::find_corner_ends(boxes, keys);
    if ends.last <= ends.first {
        vertices[0] = ends.first.code();
        return 1;
    }
    outer_chains(boxes, &ends, vertices, keys, list)
}

// The corner polygon of that one corner of every box, in the part of vertices that the first `from` leave free.
fn append_outline(
    boxes: Boxes,
    corner: Corner,
    from: usize,
    vertices: &mut [u32],
    keys: &mut [u32],
    mirror: &mut [u32],
) -> usize
    requires room { from + length boxes.numbers.now / 4 ≤ length vertices.old }
    requires scratch_for { ScratchFor (length boxes.numbers.now / 4) keys.old mirror.old }
    ensures { PolygonBehind (corners_of corner (boxes_of boxes.entry.numbers.now)) from vertices.old result
        vertices.new }
{
    corner_outline(boxes, corner, &mut vertices[from..], keys, mirror)
}

// The corner polygons of two corners of every box, one behind the other, in the part of vertices that the first `from`
// leave free. (Crate polygons writes numbers of points, not keys: one function for both would take the writer as a
// closure, and be no plainer.)
#[tactic(auto, using(corners::proofs::Places::corners_length))]
fn append_two_outlines(
    boxes: Boxes,
    first: Corner,
    second: Corner,
    from: usize,
    vertices: &mut [u32],
    keys: &mut [u32],
    mirror: &mut [u32],
) -> (usize, usize)
    requires room { from + 2 * (length boxes.numbers.now / 4) ≤ length vertices.old }
    requires scratch_for { ScratchFor (length boxes.numbers.now / 4) keys.old mirror.old }
    ensures { TwoBehind
        (corners_of first (boxes_of boxes.entry.numbers.now)) (corners_of second (boxes_of boxes.entry.numbers.now))
        from vertices.old result.0 result.1 vertices.new }
{
    let one = append_outline(boxes, first, from, vertices, keys, mirror);
    let next = from + one;
    let other = append_outline(boxes, second, next, vertices, keys, mirror);
    (one, other)
}

// The outer polygon: by quarters, but for one box, whose corners have room where the quarters' keys may have none.
fn first_outline(boxes: Boxes, vertices: &mut [u32], keys: &mut [u32], mirror: &mut [u32]) -> usize
    requires room { 8 * (length boxes.numbers.now / 4) ≤ length vertices.old }
    requires scratch_for { ScratchFor
        (min (length boxes.numbers.now) (length boxes.numbers.now / 4 + length boxes.numbers.now / 4 + 3))
        keys.old mirror.old }
    ensures { PolygonKeys (all_corners (boxes_of boxes.entry.numbers.now)) vertices.new result }
{
    if boxes.len() <= 1 {
        return outer_outline(boxes, vertices, keys, mirror);
    }
    quartered_outline(boxes, vertices, keys, mirror)
}

// The outer polygon and the corner polygons SW, SE, NE, NW, one behind another at the front of vertices, each in the
// part that the earlier ones left free. What the scratch holds is lost.
#[tactic(auto, using(corners::proofs::Places::corners_length, crate::proofs::Polygons::all_length))]
pub fn round_outlines(
    boxes: Boxes,
    vertices: &mut [u32],
    keys: &mut [u32],
    mirror: &mut [u32],
) -> RoundCounts
    requires room { 8 * (length boxes.numbers.now / 4) ≤ length vertices.old }
    requires scratch_for { ScratchFor
        (min (length boxes.numbers.now) (length boxes.numbers.now / 4 + length boxes.numbers.now / 4 + 3))
        keys.old mirror.old }
    ensures { RoundPolygons (boxes_of boxes.entry.numbers.now) vertices.new result }
{
    let outer = first_outline(boxes, vertices, keys, mirror);
    let (southwest, southeast) = append_two_outlines(
        boxes,
        Corner::SouthWest,
        Corner::SouthEast,
        outer,
        vertices,
        keys,
        mirror,
    );
    let next = outer + southwest + southeast;
    let (northeast, northwest) = append_two_outlines(
        boxes,
        Corner::NorthEast,
        Corner::NorthWest,
        next,
        vertices,
        keys,
        mirror,
    );
    RoundCounts {
        outer,
        southwest,
        southeast,
        northeast,
        northwest,
    }
}

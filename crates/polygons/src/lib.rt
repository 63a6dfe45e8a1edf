// The outer polygon and the corner polygons of a box list, written over the front of a lent buffer, east and north per
// vertex. Scratch is chosen here, once for each.
#![tactic(auto)]

ghost use Rattle.std.specs.Prelude.{◌+◌, ◌*◌, ◌/◌, ◌^◌, ◌≤◌, ◌<◌, length};
ghost use Rattle.rounds.specs.Boxes.{boxes_of, corners_of, all_corners};
ghost use Rattle.outlines.specs.Outlines.{ScratchFor, OuterRoom};
ghost use Rattle.listings.specs.Listings.{needed};
ghost use Rattle.polygons.specs.Written.{PolygonWritten, TwoWritten, CornersWritten};

use boxes::Boxes;
use outlines::MOST_KEYS;
use rounds::{Corner, MOST_BOXES};
use turns::Keys;

// Scratch has one of three sizes, so that few boxes zero little of it: for these many boxes, for these, and for the
// most that a round has.
const FEW_BOXES: usize = 32;

const SOME_BOXES: usize = 256;

// The outer polygon of so many boxes has four times as many vertices at most, and its chains are made of the keys of
// two corners of each; a little more room lets each chain end in it.
const FEW_VERTICES: usize = 132;

const FEW_KEYS: usize = 68;

const SOME_VERTICES: usize = 1028;

const SOME_KEYS: usize = 516;

const MOST_VERTICES: usize = 4100;

// How many vertices each of the corner polygons has.
#[derive(Clone, Copy)]
pub struct VertexCounts {
    pub southwest: usize,
    pub southeast: usize,
    pub northeast: usize,
    pub northwest: usize,
}

// Writes the outer polygon over the front of answer, in lent scratch. What the scratch holds is lost.
#[tactic(auto, using(outlines::proofs::Polygons::all_length))]
fn write_outer_in(
    boxes: Boxes,
    answer: &mut [i32],
    vertices: &mut [u32],
    keys: &mut [u32],
    list: &mut [u32],
) -> usize
    requires answer_room { length boxes.numbers.now * 2 ≤ length answer.old }
    requires outer_room { OuterRoom (length boxes.numbers.now / 4) vertices.old keys.old list.old }
    ensures { PolygonWritten
        (all_corners (boxes_of boxes.entry.numbers.now)) 0 answer.old result answer.new }
{
    let count = outlines::quartered_outline(boxes, vertices, keys, list);
    listings::write_vertices(
        Keys {
            codes: &vertices[..count],
        },
        answer,
    );
    count
}

// Writes the outer polygon over the front of answer, in scratch of these sizes.
fn write_outer_sized<const VERTICES: usize, const KEYS: usize>(
    boxes: Boxes,
    answer: &mut [i32],
) -> usize
    requires answer_room { length boxes.numbers.now * 2 ≤ length answer.old }
    requires vertices_room { (4 * (length boxes.numbers.now / 4) + 3 ≤ VERTICES) × (VERTICES < 2 ^ 32) }
    requires keys_room { (2 * (length boxes.numbers.now / 4) + 3 ≤ KEYS) × (KEYS < 2 ^ 32) }
    ensures { PolygonWritten
        (all_corners (boxes_of boxes.entry.numbers.now)) 0 answer.old result answer.new }
{
    let mut vertices = [0u32; VERTICES];
    let mut keys = [0u32; KEYS];
    let mut list = [0u32; KEYS];
    write_outer_in(boxes, answer, &mut vertices, &mut keys, &mut list)
}

// Writes the outer polygon over the front of answer.
pub fn write_outer(boxes: Boxes, answer: &mut [i32]) -> usize
    requires { length boxes.numbers.now * 2 ≤ length answer.old }
    ensures { PolygonWritten
        (all_corners (boxes_of boxes.entry.numbers.now)) 0 answer.old result answer.new }
{
    let count = boxes.len();
    if count <= FEW_BOXES {
        return write_outer_sized::<FEW_VERTICES, FEW_KEYS>(boxes, answer);
    }
    if count <= SOME_BOXES {
        return write_outer_sized::<SOME_VERTICES, SOME_KEYS>(boxes, answer);
    }
    write_outer_sized::<MOST_VERTICES, MOST_KEYS>(boxes, answer)
}

// Scratch for the corner polygons of so many boxes. What it holds is lost at each call.
#[derive(Drop)]
struct Scratch<const SIZE: usize> {
    vertices: [u32; SIZE],
    keys: [u32; SIZE],
    mirror: [u32; SIZE],
}

impl<const SIZE: usize> Scratch<SIZE> {
    // Writes the polygon of that one corner of every box over the front of answer.
    #[inline(always)]
    #[tactic(auto, using(corners::proofs::Places::corners_length))]
    fn write_corner(&mut self, boxes: Boxes, corner: Corner, answer: &mut [i32]) -> usize
        requires size { length boxes.numbers.now / 4 ≤ SIZE }
        requires answer_room { length boxes.numbers.now / 4 * 2 ≤ length answer.old }
        ensures { PolygonWritten
            (corners_of corner (boxes_of boxes.entry.numbers.now)) 0 answer.old result answer.new }
    {
        let count = outlines::corner_outline(
            boxes,
            corner,
            &mut self.vertices,
            &mut self.keys,
            &mut self.mirror,
        );
        listings::write_vertices(
            Keys {
                codes: &self.vertices[..count],
            },
            answer,
        );
        count
    }

    // Writes the polygon of that one corner of every box into the part of answer that the first `from` numbers leave
    // free.
    #[inline(always)]
    fn append_corner(
        &mut self,
        boxes: Boxes,
        corner: Corner,
        from: usize,
        answer: &mut [i32],
    ) -> usize
        requires size { length boxes.numbers.now / 4 ≤ SIZE }
        requires answer_room { from + length boxes.numbers.now / 4 * 2 ≤ length answer.old }
        ensures { PolygonWritten
            (corners_of corner (boxes_of boxes.entry.numbers.now)) from answer.old result answer.new }
    {
        self.write_corner(boxes, corner, &mut answer[from..])
    }

    // Writes the polygons of two corners of every box, one behind the other, likewise.
    #[inline(always)]
    #[tactic(auto, using(corners::proofs::Places::corners_length))]
    fn append_two_corners(
        &mut self,
        boxes: Boxes,
        first: Corner,
        second: Corner,
        from: usize,
        answer: &mut [i32],
    ) -> (usize, usize)
        requires size { length boxes.numbers.now / 4 ≤ SIZE }
        requires answer_room { from + length boxes.numbers.now / 4 * 4 ≤ length answer.old }
        ensures { TwoWritten
            (corners_of first (boxes_of boxes.entry.numbers.now)) (corners_of second (boxes_of boxes.entry.numbers.now))
            from answer.old result.0 result.1 answer.new }
    {
        let one = self.append_corner(boxes, first, from, answer);
        let next = from + one * 2;
        let other = self.append_corner(boxes, second, next, answer);
        (one, other)
    }
}

// Writes the corner polygons one behind another over the front of answer, in scratch of that size.
#[tactic(auto, using(corners::proofs::Places::corners_length))]
fn write_corners_sized<const SIZE: usize>(boxes: Boxes, answer: &mut [i32]) -> VertexCounts
    requires size { (length boxes.numbers.now / 4 ≤ SIZE) × (SIZE < 2 ^ 32) }
    requires answer_room { needed boxes.numbers.now ≤ length answer.old }
    ensures { CornersWritten (boxes_of boxes.entry.numbers.now) answer.old result answer.new }
{
    let mut scratch = Scratch::<SIZE> {
        vertices: [0; SIZE],
        keys: [0; SIZE],
        mirror: [0; SIZE],
    };
    let (southwest, southeast) = scratch.append_two_corners(
        boxes,
        Corner::SouthWest,
        Corner::SouthEast,
        0,
        answer,
    );
    let next = (southwest + southeast) * 2;
    let (northeast, northwest) = scratch.append_two_corners(
        boxes,
        Corner::NorthEast,
        Corner::NorthWest,
        next,
        answer,
    );
    VertexCounts {
        southwest,
        southeast,
        northeast,
        northwest,
    }
}

// Writes the corner polygons one behind another over the front of answer. (The sizes are chosen as in write_outer: they
// are const parameters, so that one chooser for both would take each call as a closure.)
pub fn write_corners(boxes: Boxes, answer: &mut [i32]) -> VertexCounts
    requires { needed boxes.numbers.now ≤ length answer.old }
    ensures { CornersWritten (boxes_of boxes.entry.numbers.now) answer.old result answer.new }
{
    let count = boxes.len();
    if count <= FEW_BOXES {
        return write_corners_sized::<FEW_BOXES>(boxes, answer);
    }
    if count <= SOME_BOXES {
        return write_corners_sized::<SOME_BOXES>(boxes, answer);
    }
    write_corners_sized::<MOST_BOXES>(boxes, answer)
}

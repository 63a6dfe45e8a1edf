// The outer polygon and the four corner polygons of a box list, in a lent buffer: east and north per vertex, then
// zeros. specs/Areas.antt says what each public call promises.
#![tactic(auto)]

ghost use Rattle.std.specs.Prelude.{◌≤◌, length};
ghost use Rattle.listings.specs.Listings.{needed};
ghost use Rattle.areas.specs.Areas.{OuterPromise, CornersPromise, OuterAnswered, CornersAnswered};
ghost use Rattle.areas.specs.Steps.{OuterStands, CornersStand};

use boxes::Boxes;
use polygons::VertexCounts;
use rounds::Refusal;

// Writes the outer polygon and the zeros after it.
#[tactic(auto, using(outlines::proofs::Polygons::all_length))]
fn list_outer(boxes: Boxes, answer: &mut [i32]) -> usize
    requires { needed boxes.numbers.now ≤ length answer.old }
    ensures { OuterStands boxes.entry.numbers.now answer.old result answer.new }
{
    let count = polygons::write_outer(boxes, answer);
    let end = count * 2;
    listings::clear(end, boxes.len() * 8, answer);
    count
}

// Writes the corner polygons and the zeros after them.
// The two pairs of calls stay apart: one pair would take the writer as a closure with its contract, to save four lines.
#[tactic(auto, using(corners::proofs::Places::corners_length))]
fn list_corners(boxes: Boxes, answer: &mut [i32]) -> VertexCounts
    requires { needed boxes.numbers.now ≤ length answer.old }
    ensures { CornersStand boxes.entry.numbers.now answer.old result answer.new }
{
    let counts = polygons::write_corners(boxes, answer);
    let end = (counts.southwest + counts.southeast + counts.northeast + counts.northwest) * 2;
    listings::clear(end, boxes.len() * 8, answer);
    counts
}

// The outer polygon of the boxes, at the front of answer, with how many vertices it has; or a refusal, and answer is
// as it was.
pub fn outer_polygon(numbers: &[i32], answer: &mut [i32]) -> Result<usize, Refusal>
    ensures promise { OuterPromise numbers.now answer.old result answer.new }
    ensures answered { OuterAnswered numbers.now answer.old result answer.new }
{
    let boxes = checks::check_area(numbers, answer.len())?;
    let count = list_outer(boxes, answer);
    Ok(count)
}

// The corner polygons SW, SE, NE, NW of the boxes, one behind another in answer, with how many vertices each has; or a
// refusal, and answer is as it was.
pub fn corner_polygons(numbers: &[i32], answer: &mut [i32]) -> Result<VertexCounts, Refusal>
    ensures promise { CornersPromise numbers.now answer.old result answer.new }
    ensures answered { CornersAnswered numbers.now answer.old result answer.new }
{
    let accepted = checks::check_area(numbers, answer.len())?;
    let counts = list_corners(accepted, answer);
    Ok(counts)
}

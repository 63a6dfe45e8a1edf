// The verdict on a plug, for boxes lent as a list of records with four named edges. The records' edges are copied
// into one flat list, and the verdict is that of the flat list. A list of too many records is turned back with none
// of them copied.
#![tactic(auto)]

ghost use Rattle.std.specs.Prelude.{◌≡◌, [], ◌∷◌, ◌*◌, ◌<◌, ◌≤◌, length, take};
ghost use Rattle.std.proofs.lemmas.List.Edits.{sets};
ghost use Rattle.rounds.specs.Boxes.{most_boxes};
ghost use Rattle.verdicts.specs.Verdicts.{VerdictIs};
ghost use Rattle.verdicts.specs.Answers.{verdict_of};
ghost use Rattle.records.specs.Records.{edges_of};

use plane::Point;
use rounds::{Box, Cause, MOST_BOXES, MOST_NUMBERS, Refusal};
use verdicts::Verdict;

// Copies the four edges of the record at place `i`, from 0.
fn copy_box(flat: &mut [i32; MOST_NUMBERS], i: usize, b: Box)
    requires { i < most_boxes }
    ensures { flat.new ≡ sets flat.old (i * 4) (edges_of (b ∷ [])) }
{
    let at = i * 4;
    flat[at] = b.west;
    flat[at + 1] = b.south;
    flat[at + 2] = b.east;
    flat[at + 3] = b.north;
}

// The flat list of the records' edges, at the front of an array that has room for it.
fn flattened(boxes: &[Box]) -> [i32; MOST_NUMBERS]
    requires { length boxes.now ≤ most_boxes }
    ensures { take (length boxes.now * 4) result ≡ edges_of boxes.now }
{
    // By index: of what a `zip` with `chunks_exact_mut` writes, no proof knows anything afterwards.
    let mut flat = [0; MOST_NUMBERS];
    for (i, b) in boxes.iter().enumerate() {
        copy_box(&mut flat, i, *b);
    }
    flat
}

// The verdict on the plug: that of the flat list of the records' edges, reasons included. More than 1,024 records are
// turned back by 3.
pub fn verdict_on(boxes: &[Box], plug: Point) -> Result<Verdict, Refusal>
    ensures { VerdictIs (edges_of boxes.now) plug result × (result ≡ verdict_of (edges_of boxes.now) plug) }
{
    let count = boxes.len();
    if MOST_BOXES < count {
        return Err(Refusal {
            cause: Cause::TooManyBoxes,
            place: count,
        });
    }
    let flat = flattened(boxes);
    verdicts::verdict_on(&flat[..count * 4], plug)
}

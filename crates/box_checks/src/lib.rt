// The checks of a box list: causes 1 to 5 (docs/SCOPE.md 6.2).
#![tactic(auto)]

ghost use Rattle.std.specs.Prelude.{◌≡◌, IfOk};
ghost use Rattle.rounds.specs.Refusals.{fault_of, box_fault, box_list_fault};

use boxes::Boxes;
use rounds::{Box, Cause, MOST_BOXES, Refusal};

// Checks box number `number`: 4 before 5.
fn check_box(b: Box, number: usize) -> Result<(), Refusal>
    ensures { fault_of result ≡ box_fault number b }
{
    let beyond = bounds::has_edge_beyond(b);
    let reversed = bounds::is_reversed(b);
    if !(beyond | reversed) {
        return Ok(());
    }
    if beyond {
        return Err(Refusal {
            cause: Cause::EdgeBeyond,
            place: number,
        });
    }
    Err(Refusal {
        cause: Cause::EdgesReversed,
        place: number,
    })
}

// Checks a box list, and gives it as accepted: 1, 2, 3, then box by box.
pub fn check_boxes(numbers: &[i32]) -> Result<Boxes<'_>, Refusal>
    ensures fault { fault_of result ≡ box_list_fault numbers.now }
    ensures same { IfOk result (λ boxes. boxes.numbers.now ≡ numbers.now) }
{
    let length = numbers.len();
    if length % 4 != 0 {
        return Err(Refusal {
            cause: Cause::ListLength,
            place: length,
        });
    }
    if length == 0 {
        return Err(Refusal {
            cause: Cause::NoBox,
            place: 0,
        });
    }
    let count = length / 4;
    if MOST_BOXES < count {
        return Err(Refusal {
            cause: Cause::TooManyBoxes,
            place: count,
        });
    }
    for k in 0..count {
        check_box(boxes::box_at(numbers, k), k + 1)?;
    }
    Ok(Boxes { numbers })
}

// The checks of a plug, a plug list and a lent buffer's length, and of what the public calls are lent: causes 1 to 7 of
// docs/SCOPE.md 6.2.
#![tactic(auto)]

ghost use Rattle.std.specs.Prelude.{◌≡◌, IfOk};
ghost use Rattle.rounds.specs.Refusals.{fault_of, plug_fault, plug_list_fault, buffer_fault, area_fault, verdict_fault};

use boxes::Boxes;
use plane::Point;
use rounds::{Cause, Refusal};

// Checks plug number `number`: 6.
pub fn check_plug(plug: Point, number: usize) -> Result<(), Refusal>
    ensures { fault_of result ≡ plug_fault number plug }
{
    if bounds::is_beyond(plug.east) | bounds::is_beyond(plug.north) {
        return Err(Refusal {
            cause: Cause::PlugBeyond,
            place: number,
        });
    }
    Ok(())
}

// Checks a plug list: 1, then plug by plug.
pub fn check_plugs(plugs: &[i32]) -> Result<(), Refusal>
    ensures { fault_of result ≡ plug_list_fault plugs.now }
{
    let length = plugs.len();
    if length % 2 != 0 {
        return Err(Refusal {
            cause: Cause::ListLength,
            place: length,
        });
    }
    let count = length / 2;
    for k in 0..count {
        check_plug(boxes::plug_at(plugs, k), k + 1)?;
    }
    Ok(())
}

// Checks that a lent buffer of a length has what is needed: 7.
pub fn check_buffer(needed: usize, given: usize) -> Result<(), Refusal>
    ensures { fault_of result ≡ buffer_fault needed given }
{
    if given < needed {
        return Err(Refusal {
            cause: Cause::BufferShort,
            place: needed,
        });
    }
    Ok(())
}

// Checks what a polygon call is lent, and gives the boxes as accepted: the boxes, then a buffer of 8 × N numbers.
pub fn check_area(numbers: &[i32], given: usize) -> Result<Boxes<'_>, Refusal>
    ensures fault { fault_of result ≡ area_fault numbers.now given }
    ensures same { IfOk result (λ boxes. boxes.numbers.now ≡ numbers.now) }
{
    let listed = box_checks::check_boxes(numbers)?;
    check_buffer(numbers.len() / 4 * 8, given)?;
    Ok(listed)
}

// Checks what a verdict is asked on, and gives the boxes as accepted: the boxes, then the plug with place 1.
pub fn check_verdict(numbers: &[i32], plug: Point) -> Result<Boxes<'_>, Refusal>
    ensures fault { fault_of result ≡ verdict_fault numbers.now plug }
    ensures same { IfOk result (λ boxes. boxes.numbers.now ≡ numbers.now) }
{
    let boxes = box_checks::check_boxes(numbers)?;
    check_plug(plug, 1)?;
    Ok(boxes)
}

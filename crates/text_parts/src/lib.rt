// The text of the printing program (docs/SCOPE.md 8.2) in parts. A text is its opening, which is the line of a refusal
// or that of the counts, and behind that of the counts the lines of the plugs. These are read from the file and written
// piece by piece, so that nobody holds all plugs at once.
//
// No heap: each step writes at the front of what it is lent, returns how much it wrote, and leaves the rest as it was.
#![tactic(auto)]

ghost use Rattle.std.specs.Prelude.{◌≤◌, ◌≡◌, length};
ghost use Rattle.rounds.specs.Refusals.{number_of};
ghost use Rattle.texts.specs.Text.{refused_line, count_line, Wrote};
ghost use Rattle.plug_lines.specs.Steps.{most_plugs};
ghost use Rattle.text_parts.specs.Steps.{most_refused_line, most_count_line, OpeningRoom, Opened, OpenedOrRefused};

mod lines_left;

pub use lines_left::{LinesLeft, Piece};
use rounds::{Cause, MOST_BOXES, MOST_INPUT, MOST_NUMBERS, Refusal};

// The length of a buffer in which every opening has room, and the lines of every piece.
pub const PIECE_LENGTH: usize = 4096;

// The opening of a text: how many bytes it has, and the lines that follow it, which are none behind a refusal.
#[derive(Clone, Copy)]
pub struct Opening<'a> {
    pub bytes: usize,
    pub left: Option<LinesLeft<'a>>,
}

// Writes the line of a refused file or round.
pub fn write_refusal(refusal: Refusal, out: &mut [u8]) -> usize
    requires { most_refused_line ≤ length out.old }
    ensures { Wrote
        (refused_line (number_of refusal.cause) refusal.place) out.old result out.new }
{
    let number = u32::from(refusal.cause) as usize;
    texts::write_fields(b"refused ", number, b" ", refusal.place, out)
}

// Writes the line of the counts, which have up to four digits.
fn write_counts(boxes: usize, plugs: usize, out: &mut [u8]) -> usize
    requires { (boxes ≤ most_plugs) × (plugs ≤ most_plugs) × (most_count_line ≤ length out.old) }
    ensures { Wrote (count_line boxes plugs) out.old result out.new }
{
    texts::write_fields(b"boxes ", boxes, b" plugs ", plugs, out)
}

// The opening of the text of an input that is a round, or its refusal. More boxes than a round has are refused before
// they are read.
fn open_round<'a>(
    file: &'a [u8],
    vertices: &'a mut [u32],
    out: &mut [u8],
) -> Result<Opening<'a>, Refusal>
    requires { OpeningRoom vertices.old out.old }
    ensures { OpenedOrRefused file.now out.old result out.new }
{
    if MOST_INPUT < file.len() {
        return Err(Refusal {
            cause: Cause::InputTooLong,
            place: MOST_INPUT,
        });
    }
    let counts = file_passes::judge_form(file)?;
    if MOST_BOXES < counts.boxes {
        return Err(Refusal {
            cause: Cause::TooManyBoxes,
            place: counts.boxes,
        });
    }
    let mut numbers = [0i32; MOST_NUMBERS];
    let at = file_passes::read_boxes(file, &mut numbers);
    let boxes = box_checks::check_boxes(&numbers[..4 * counts.boxes])?;
    let shapes = plug_lines::make_shapes(boxes, counts.plugs, vertices);
    Ok(Opening {
        bytes: write_counts(counts.boxes, counts.plugs, out),
        left: LinesLeft::of_plugs(file, shapes, at, 0, counts.plugs),
    })
}

// The opening of the text of an input. The polygons of its round are made once, and stand in vertices.
pub fn open_text<'a>(file: &'a [u8], vertices: &'a mut [u32], out: &mut [u8]) -> Opening<'a>
    requires { OpeningRoom vertices.old out.old }
    ensures { Opened file.now out.old result out.new }
{
    match open_round(file, vertices, out) {
        Ok(opening) => opening,
        Err(refusal) => Opening {
            bytes: write_refusal(refusal, out),
            left: None,
        },
    }
}

// The public calls for C: each answer is a struct of numbers, returned by value. No call has a `requires`. A call's
// promise is that of the call it wraps, of the answer that the struct means (crate c_answers); and a verdict's struct
// is that of the verdict which the wrapped call gives, reasons included. include/feltloquat.h says the same for C.
#![tactic(auto)]

ghost use Rattle.std.specs.Prelude.{◌≡◌};
ghost use Rattle.plane.specs.Points.{point};
ghost use Rattle.areas.specs.Areas.{OuterPromise, CornersPromise, OuterAnswered, CornersAnswered};
ghost use Rattle.rounds.specs.Replies.{reply_of};
ghost use Rattle.verdicts.specs.Verdicts.{VerdictIs, verdict_on};
ghost use Rattle.verdicts.specs.Answers.{verdict_of, word_only};
ghost use Rattle.records.specs.Records.{edges_of};
ghost use Rattle.formats.specs.Promises.{RoundRead, RoundWritten};
ghost use Rattle.texts.specs.Text.{Wrote, text_of};
ghost use Rattle.c_answers.specs.Answers.{Answered};
ghost use Rattle.c_areas.specs.Areas.{outer_struct, outer_meant, corners_struct, corners_meant};
ghost use Rattle.c_files.specs.Files.{read_struct, read_meant, write_struct, write_meant};
ghost use Rattle.c_verdicts.specs.Verdicts.{verdict_struct, verdict_meant, word_struct, word_meant};

use c_areas::{CornersAnswer, OuterAnswer};
use c_files::{ReadAnswer, WriteAnswer};
use c_verdicts::{VerdictAnswer, WordAnswer};
use plane::Point;
use printing::TEXT_LENGTH;
use rounds::Box;

// The outer polygon of the boxes, at the front of answer.
#[unsafe(no_mangle)]
pub extern "C" fn feltloquat_outer_polygon(boxes: &[i32], answer: &mut [i32]) -> OuterAnswer
    ensures promise { Answered outer_struct outer_meant (λ reply.
        OuterPromise boxes.now answer.old reply answer.new) result }
    ensures answered { Answered outer_struct outer_meant (λ reply.
        OuterAnswered boxes.now answer.old reply answer.new) result }
{
    OuterAnswer::from(areas::outer_polygon(boxes, answer))
}

// The corner polygons SW, SE, NE, NW of the boxes, one behind another in answer.
#[unsafe(no_mangle)]
pub extern "C" fn feltloquat_corner_polygons(boxes: &[i32], answer: &mut [i32]) -> CornersAnswer
    ensures promise { Answered corners_struct corners_meant (λ reply.
        CornersPromise boxes.now answer.old reply answer.new) result }
    ensures answered { Answered corners_struct corners_meant (λ reply.
        CornersAnswered boxes.now answer.old reply answer.new) result }
{
    CornersAnswer::from(areas::corner_polygons(boxes, answer))
}

// The verdict on the plug at an east and a north, with its reasons where it is undecided.
#[unsafe(no_mangle)]
pub extern "C" fn feltloquat_verdict(boxes: &[i32], east: i32, north: i32) -> VerdictAnswer
    ensures { Answered verdict_struct verdict_meant (VerdictIs boxes.now (point east north)) result
        × (result ≡ verdict_struct (verdict_of boxes.now (point east north))) }
{
    VerdictAnswer::from(verdicts::verdict_on(boxes, Point { east, north }))
}

// The verdict's word alone.
#[unsafe(no_mangle)]
pub extern "C" fn feltloquat_word(boxes: &[i32], east: i32, north: i32) -> WordAnswer
    ensures { Answered word_struct word_meant (λ reply.
        reply_of reply ≡ verdict_on boxes.now (point east north)) result
        × (result ≡ word_struct (word_only (verdict_of boxes.now (point east north)))) }
{
    WordAnswer::from(verdicts::word_on(boxes, Point { east, north }))
}

// The verdict for boxes lent as a list of records.
#[unsafe(no_mangle)]
pub extern "C" fn feltloquat_verdict_on_records(
    boxes: &[Box],
    east: i32,
    north: i32,
) -> VerdictAnswer
    ensures { Answered verdict_struct verdict_meant
        (VerdictIs (edges_of boxes.now) (point east north)) result
        × (result ≡ verdict_struct (verdict_of (edges_of boxes.now) (point east north))) }
{
    VerdictAnswer::from(records::verdict_on(boxes, Point { east, north }))
}

// Reads a round file into a buffer of boxes and one of plugs.
#[unsafe(no_mangle)]
pub extern "C" fn feltloquat_read_round(
    file: &[u8],
    boxes: &mut [i32],
    plugs: &mut [i32],
) -> ReadAnswer
    ensures { Answered read_struct read_meant (λ reading.
        RoundRead file.now boxes.old plugs.old reading
        boxes.new plugs.new) result }
{
    ReadAnswer::from(files::read_round(file, boxes, plugs))
}

// Writes a round as a file without notes.
#[unsafe(no_mangle)]
pub extern "C" fn feltloquat_write_round(
    boxes: &[i32],
    plugs: &[i32],
    file: &mut [u8],
) -> WriteAnswer
    ensures { Answered write_struct write_meant (λ writing.
        RoundWritten boxes.now plugs.now file.old writing file.new) result }
{
    WriteAnswer::from(files::write_round(boxes, plugs, file))
}

// The text that the printing program prints for a round file, and how many bytes it has.
#[unsafe(no_mangle)]
pub extern "C" fn feltloquat_print_round(file: &[u8], text: &mut [u8; TEXT_LENGTH]) -> usize
    ensures { Wrote (text_of file.now) text.old result text.new }
{
    printing::write_text(file, text)
}

// The plugs' lines of the printing program (docs/SCOPE.md 8.2): the polygons of the round once, then plug by plug.
//
// No heap: each step writes at the front of what it is lent, returns how much it wrote, and leaves the rest as it was.
#![tactic(auto)]

ghost use Rattle.std.specs.Prelude.{◌+◌, ◌*◌, ◌/◌, ◌≤◌, length};
ghost use Rattle.rounds.specs.Boxes.{boxes_of, plugs_of};
ghost use Rattle.rounds.specs.Replies.{result as replied, reply_of};
ghost use Rattle.outlines.specs.RoundPolygons.{RoundPolygons};
ghost use Rattle.plug_words.specs.Shapes.{ShapesOf};
ghost use Rattle.texts.specs.Decimals.{decimal};
ghost use Rattle.texts.specs.Text.{after_number, plug_lines, Wrote};
ghost use Rattle.plug_lines.specs.Steps.{most_after_number, LineRoom, RoomBehind, LineBy, LinesBehind};

use boxes::Boxes;
use outlines::MOST_KEYS;
use plane::Point;
use plug_words::RoundShapes;
use rounds::{Refusal, Word};
use words::Polygons;

// The most vertices of the five polygons of a round.
pub const MOST_VERTICES: usize = 8192;

// Writes a word's name between a blank and the line's end. (Inlined where the word is known, so that each of the three
// pieces has a known length.)
#[inline(always)]
fn write_name(word: Word, out: &mut [u8]) -> usize
    requires { most_after_number ≤ length out.old }
    ensures { Wrote (after_number (replied word)) out.old result out.new }
{
    let n = texts::write_bytes(b" ", out);
    let m = n + texts::write_bytes(word.name().as_bytes(), &mut out[n..]);
    m + texts::write_bytes(b"\n", &mut out[m..])
}

// Writes a word after a plug's number.
fn write_word(word: Word, out: &mut [u8]) -> usize
    requires { most_after_number ≤ length out.old }
    ensures { Wrote (after_number (replied word)) out.old result out.new }
{
    match word {
        Word::Inside => write_name(Word::Inside, out),
        Word::Outside => write_name(Word::Outside, out),
        Word::Undecided => write_name(Word::Undecided, out),
    }
}

// Writes what stands after a plug's number. A plug is refused by one cause alone, so its line is written out.
fn write_reply(reply: Result<Word, Refusal>, out: &mut [u8]) -> usize
    requires { most_after_number ≤ length out.old }
    ensures { Wrote (after_number (reply_of reply)) out.old result out.new }
{
    match reply {
        Ok(word) => write_word(word, out),
        Err(_) => texts::write_bytes(b" refused 6\n", out),
    }
}

// Writes the line of a plug, against the polygons of a round.
fn write_plug_line(shapes: RoundShapes, number: usize, plug: Point, out: &mut [u8]) -> usize
    requires { length (decimal number) + most_after_number ≤ length out.old }
    ensures { LineBy shapes.entry.polygons.vertices.now shapes.entry.polygons.counts number plug
        out.old result out.new }
{
    let n = texts::write_decimal(number, out);
    n + write_reply(plug_words::word_of(shapes, plug), &mut out[n..])
}

// Writes the line of each plug, against the polygons of a round; so many plugs of the round stand before these.
pub fn write_lines(shapes: RoundShapes, before: usize, plugs: &[i32], out: &mut [u8]) -> usize
    requires { RoomBehind before plugs.now out.old }
    ensures { LinesBehind shapes.entry.polygons.vertices.now shapes.entry.polygons.counts before plugs.now
        out.old result out.new }
{
    let mut done: usize = 0;
    for k in 0..plugs.len() / 2 {
        done += write_plug_line(
            shapes,
            before + k + 1,
            boxes::plug_at(plugs, k),
            &mut out[done..],
        );
    }
    done
}

// The polygons of accepted boxes, made once for all plugs, at the front of vertices.
fn make_polygons<'a>(boxes: Boxes, vertices: &'a mut [u32]) -> Polygons<'a>
    requires { 8 * (length boxes.numbers.now / 4) ≤ length vertices.old }
    ensures { RoundPolygons (boxes_of boxes.entry.numbers.now) result.vertices.now result.counts }
{
    let mut keys = [0u32; MOST_KEYS];
    let mut mirror = [0u32; MOST_KEYS];
    let counts = outlines::round_outlines(boxes, vertices, &mut keys, &mut mirror);
    Polygons { vertices, counts }
}

// The polygons of accepted boxes, made once for so many plugs, with a box in which every plug is inside.
pub fn make_shapes<'a>(boxes: Boxes, plugs: usize, vertices: &'a mut [u32]) -> RoundShapes<'a>
    requires { 8 * (length boxes.numbers.now / 4) ≤ length vertices.old }
    ensures { ShapesOf (boxes_of boxes.entry.numbers.now) result }
{
    let polygons = make_polygons(boxes, vertices);
    RoundShapes {
        polygons,
        sure: sure_boxes::sure_box(polygons, plugs),
    }
}

// Writes the line of each plug. The polygons of the boxes are made once.
pub fn write_plug_lines(boxes: Boxes, plugs: &[i32], out: &mut [u8]) -> usize
    requires { LineRoom 0 plugs.now out.old }
    ensures { Wrote
        (plug_lines 1 (boxes_of boxes.entry.numbers.now) (plugs_of plugs.now))
        out.old result out.new }
{
    let mut vertices = [0u32; MOST_VERTICES];
    let shapes = make_shapes(boxes, plugs.len() / 2, &mut vertices);
    write_lines(shapes, 0, plugs, out)
}

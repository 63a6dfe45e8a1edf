// The word of a plug against the polygons of a round, or its refusal, where a box may be known in which every plug is
// inside.
#![tactic(auto)]

ghost use Rattle.std.specs.Prelude.{◌≡◌, true, IfSome};
ghost use Rattle.std.proofs.Props.{props};
ghost use Rattle.rounds.specs.Picks.{InBox};
ghost use Rattle.plug_words.specs.Plugs.{WordBy, Sure};

use plane::Point;
use rounds::{Box, Refusal, Word};
use turns::Key;
use words::Polygons;

// What the plugs of a round are judged by: its polygons, and a box in which every plug is inside, where one is known.
#[derive(Clone, Copy)]
pub struct RoundShapes<'a> {
    pub polygons: Polygons<'a>,
    pub sure: Option<Box>,
    ghost inside: { IfSome sure (Sure polygons.vertices.now polygons.counts) } by { Prim.hlevel props },
}

// The word of a plug against the polygons of a round, or its refusal.
pub fn word_by(polygons: Polygons, plug: Point) -> Result<Word, Refusal>
    ensures { WordBy polygons.entry.vertices.now polygons.entry.counts plug result }
{
    checks::check_plug(plug, 1)?;
    Ok(words::word_in(polygons, Key::new(plug)))
}

// Whether a box holds a point, its edges included: one test of all four edges, since no single one can be foretold.
fn holds(b: Box, plug: Point) -> bool
    ensures { result ≡ true → InBox 1 b plug }
{
    let across = (b.west <= plug.east) & (plug.east <= b.east);
    let upward = (b.south <= plug.north) & (plug.north <= b.north);
    across & upward
}

// The word of a plug, or its refusal: at once in the sure box, elsewhere by the polygons.
pub fn word_of(shapes: RoundShapes, plug: Point) -> Result<Word, Refusal>
    ensures { WordBy shapes.entry.polygons.vertices.now shapes.entry.polygons.counts plug result }
{
    match shapes.sure {
        Some(sure) if holds(sure, plug) => Ok(Word::Inside),
        _ => word_by(shapes.polygons, plug),
    }
}

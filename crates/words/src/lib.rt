// The word of a plug against the five polygons of a round, which are made once for many plugs.
#![tactic(auto)]

ghost use Rattle.std.specs.Prelude.{◌≡◌, ◌≤◌, length};
ghost use Rattle.std.proofs.Props.{props};
ghost use Rattle.plane.specs.Props.{All-prop};
ghost use Rattle.locations.specs.Places.{PlaceOf};
ghost use Rattle.outlines.specs.RoundPolygons.{outer_vertices, corner_vertices};
ghost use Rattle.words.specs.Words.{RoundKeys, WithinOf, WordIn};

use locations::Place;
use outlines::RoundCounts;
use rounds::{Corner, Word};
use turns::{Key, Keys};

// The five polygons of a round: their vertices one polygon behind another, and how many each has.
#[derive(Clone, Copy)]
pub struct Polygons<'a> {
    pub vertices: &'a [u32],
    pub counts: RoundCounts,
    ghost keys: { RoundKeys vertices.now counts } by { Prim.hlevel (props, All-prop) },
}

impl<'a> Polygons<'a> {
    // The vertices of the outer polygon.
    pub fn outer(self) -> Keys<'a>
        ensures { result.codes.now ≡ outer_vertices self.entry.counts self.entry.vertices.now }
    {
        Keys {
            codes: &self.vertices[..self.counts.outer],
        }
    }

    // The vertices of a corner polygon.
    pub fn of_corner(self, corner: Corner) -> Keys<'a>
        ensures { result.codes.now ≡ corner_vertices self.entry.counts corner self.entry.vertices.now }
    {
        let counts = self.counts;
        let southwest = counts.outer;
        let southeast = southwest + counts.southwest;
        let northeast = southeast + counts.southeast;
        let northwest = northeast + counts.northeast;
        let codes = match corner {
            Corner::SouthWest => &self.vertices[southwest..southeast],
            Corner::SouthEast => &self.vertices[southeast..northeast],
            Corner::NorthEast => &self.vertices[northeast..northwest],
            Corner::NorthWest => &self.vertices[northwest..northwest + counts.northwest],
        };
        Keys { codes }
    }
}

// Whether the plug is strictly within the polygon of the vertices.
fn is_within(vertices: Keys, plug: Key) -> bool
    requires { 1 ≤ length vertices.codes.now }
    ensures { WithinOf vertices.entry.codes.now plug result }
{
    matches!(locations::place_of(vertices, plug), Place::Within)
}

// The word of a plug that is strictly within the outer polygon: inside, if it is strictly within each corner polygon.
fn word_by_corners(polygons: Polygons, plug: Key) -> Word
    requires { PlaceOf (outer_vertices polygons.counts polygons.vertices.now) plug Place.Within }
    ensures { WordIn polygons.entry.vertices.now polygons.entry.counts plug result }
{
    let inside = Corner::ALL
        .iter()
        .all(|corner| is_within(polygons.of_corner(*corner), plug));
    if inside {
        Word::Inside
    } else {
        Word::Undecided
    }
}

// The word of a plug against the outer polygon and the four corner polygons of some boxes.
pub fn word_in(polygons: Polygons, plug: Key) -> Word
    ensures { WordIn polygons.entry.vertices.now polygons.entry.counts plug result }
{
    match locations::place_of(polygons.outer(), plug) {
        Place::Off => Word::Outside,
        Place::OnLine => Word::Undecided,
        Place::Within => word_by_corners(polygons, plug),
    }
}

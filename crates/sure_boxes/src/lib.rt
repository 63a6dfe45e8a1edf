// A box in which every plug of a round is inside, found once for many plugs. Inside is strictly within four convex
// polygons, so a box has only plugs that are inside if its four corners are.
#![tactic(auto)]

ghost use Rattle.std.specs.Prelude.{◌≡◌, true, Ok, IfSome};
ghost use Rattle.plane.specs.Points.{InSpan};
ghost use Rattle.rounds.specs.declared.Word.TheVariants.{Inside};
ghost use Rattle.plug_words.specs.Plugs.{WordBy, Sure};

use extremes::Far;
use plane::Point;
use rounds::{Box, Corner, Word};
use turns::{Key, Keys};
use words::Polygons;

// For fewer plugs no box is sought: to find one takes as long as a few of them do, as measured.
const FEW_PLUGS: usize = 32;

// A key that lies as far as any in the direction of the key `toward`; the datum's, if there is none. Which key it is
// decides how large the box becomes, and is not promised.
fn farthest_key(keys: Keys, toward: Key) -> Key {
    let datum = Key::new(Point { east: 0, north: 0 });
    (0..keys.codes.len())
        .map(|k| keys.at(k))
        .max_by_key(|key| turns::dot_product(datum, toward, *key))
        .unwrap_or(datum)
}

// The same of the vertices of a corner polygon, in the direction of a point.
fn farthest_vertex(polygons: Polygons, corner: Corner, toward: Point) -> Key
    requires { InSpan toward }
{
    farthest_key(polygons.of_corner(corner), Key::new(toward))
}

// In each direction the farthest vertex of the corner polygon that reaches least far there.
// Each direction is named once: a loop over corners would name both in a table.
fn find_far(polygons: Polygons) -> Far {
    Far {
        ne: farthest_vertex(polygons, Corner::SouthWest, Point { east: 1, north: 1 }),
        nw: farthest_vertex(polygons, Corner::SouthEast, Point { east: -1, north: 1 }),
        sw: farthest_vertex(
            polygons,
            Corner::NorthEast,
            Point {
                east: -1,
                north: -1,
            },
        ),
        se: farthest_vertex(polygons, Corner::NorthWest, Point { east: 1, north: -1 }),
    }
}

// The largest box that does not reach as far as the four keys: closed and in metres, unlike extremes::between_far.
fn between(far: Far) -> Box {
    Box {
        west: far.nw.east().max(far.sw.east()) + 1,
        south: far.sw.north().max(far.se.north()) + 1,
        east: far.ne.east().min(far.se.east()) - 1,
        north: far.ne.north().min(far.nw.north()) - 1,
    }
}

// Whether a plug is inside.
fn is_inside(polygons: Polygons, plug: Point) -> bool
    ensures { result ≡ true → WordBy polygons.entry.vertices.now polygons.entry.counts plug (Ok Inside) }
{
    matches!(plug_words::word_by(polygons, plug), Ok(Word::Inside))
}

// A box in which every plug is inside, if the four corners of the one that is tried are.
fn find_sure_box(polygons: Polygons) -> Option<Box>
    ensures { IfSome result (λ b. Sure polygons.entry.vertices.now polygons.entry.counts b) }
{
    let b = between(find_far(polygons));
    let inside = Corner::ALL
        .iter()
        .all(|corner| is_inside(polygons, b.corner(*corner)));
    if inside { Some(b) } else { None }
}

// A box in which every plug is inside, for so many plugs of a round.
pub fn sure_box(polygons: Polygons, plugs: usize) -> Option<Box>
    ensures { IfSome result (λ b. Sure polygons.entry.vertices.now polygons.entry.counts b) }
{
    if plugs < FEW_PLUGS {
        return None;
    }
    find_sure_box(polygons)
}

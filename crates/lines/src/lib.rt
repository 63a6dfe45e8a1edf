// The side of a line that a point is on, where many points are tried against one line: what is the same for all of them
// is worked out once. Points are keys (crate turns).
#![tactic(auto)]

ghost use Rattle.turns.specs.Keys.{IsKey};
ghost use Rattle.lines.specs.Lines.{LineOf, Drawn, SideOf};

use turns::Key;

// The line from one key's point to another's: how far it goes east and north, and what each of its points has in
// common: east times the north part of its key, less north times the east part.
#[derive(Clone, Copy)]
pub struct Line {
    pub east: i64,
    pub north: i64,
    pub offset: i64,
}

// The line from a's point to b's.
pub fn line_through(a: Key, b: Key) -> Line
    ensures value { LineOf a b result }
    ensures keys { IsKey a × IsKey b }
{
    let east = i64::from(turns::east_between(a, b));
    let north = i64::from(turns::north_between(a, b));
    let offset = east * i64::from(a.north_part()) - north * i64::from(a.east_part());
    Line {
        east,
        north,
        offset,
    }
}

// Twice the signed area of the triangle of a line's two points and a key's: for many keys and one line, faster than
// `turns::signed_area`.
pub fn side_of(line: Line, k: Key) -> i64
    requires { Drawn line }
    ensures value { SideOf line k result }
    ensures key { IsKey k }
{
    line.east * i64::from(k.north_part()) - line.north * i64::from(k.east_part()) - line.offset
}

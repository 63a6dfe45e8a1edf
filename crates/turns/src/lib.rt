// The arithmetic of order and turns: a layer of its own (docs/SCOPE.md 3.6). Points of the span are carried as keys
// (specs/Keys.antt), and no other crate knows how. Polygons and verdicts rely only on these promises. Nothing overflows
// for coordinates in the span.
#![tactic(auto)]

ghost use Rattle.std.specs.Prelude.{◌≡◌, pos, ◌-ℤ◌, ◌<◌, ◌≤ℤ◌, get_or, length};
ghost use Rattle.std.specs.Int.Signed.{lt_z};
ghost use Rattle.std.proofs.Props.{props};
ghost use Rattle.plane.specs.Members.{All};
ghost use Rattle.plane.specs.Props.{All-prop};
ghost use Rattle.plane.specs.Points.{InSpan, signed_area, dot_product};
ghost use Rattle.turns.specs.Keys.{IsKey, KeyOf, point_of, east_part, north_part};
ghost use Rattle.turns.specs.Turns.{turn_of};
ghost use Rattle.turns.specs.Reflection.{reflected};
ghost use Rattle.turns.specs.Sums.{sum_of, difference_of, Encoded, Decoded};

use codes::Coded;
use plane::{Point, SPAN};
use std::cmp::Ordering;
use std::marker::Model;

// How much greater a key is than that of the point one metre west: more than any part of a key.
const STRIDE: u32 = 32768;

// The greatest part of a key.
const GREATEST_PART: u32 = 32000;

// The code of the north-east end of the span.
const GREATEST_CODE: u32 = GREATEST_PART * STRIDE + GREATEST_PART;

// The east part of a code: the order of parts is that of coordinates.
#[tactic(auto, unfolding(crate::specs::Keys::east_part))]
pub fn east_part(code: u32) -> u32
    ensures { result ≡ east_part code }
{
    code / STRIDE
}

// The north part of a code.
#[tactic(auto, unfolding(crate::specs::Keys::north_part))]
pub fn north_part(code: u32) -> u32
    ensures { result ≡ north_part code }
{
    code % STRIDE
}

// A point of the span as one number: its order is that of points, by east and then by north. A clause sees the number.
#[derive(Clone, Copy, Debug, PartialEq, Eq, PartialOrd, Ord)]
pub struct Key {
    code: u32,
}

impl Model for Key {
    ghost use Rattle.std.specs.Prelude.{ℕ};
    ghost use Rattle.turns.specs.Keys.{IsKey};

    ghost Value = { ℕ };

    ghost view = { λ k. k.code };

    ghost invariant = { λ k. IsKey k.code };

    ghost inverse = { λ n. record { code = n } };
}

impl Coded for Key {
    ghost code = { λ k. k };

    ghost told = { λ a b e. e };

    // The number that the key is.
    fn code(self) -> u32
        ensures value { result ≡ self }
        ensures key { IsKey self }
    {
        self.code
    }
}

impl Key {
    // The key of the span's south-west end, the least.
    pub const LEAST: Key = Key { code: 0 };

    // The key of a point of the span.
    pub fn new(point: Point) -> Key
        requires { InSpan point }
        ensures { KeyOf point result }
    {
        let e = (point.east + SPAN) as u32;
        let n = (point.north + SPAN) as u32;
        Key {
            code: e * STRIDE + n,
        }
    }

    // The key that a number is, where it is one.
    pub fn from_code(code: u32) -> Key
        requires { IsKey code }
        ensures { result ≡ code }
    {
        Key { code }
    }

    // The east part: the order of parts is that of coordinates.
    pub fn east_part(self) -> u32
        ensures value { result ≡ east_part self }
        ensures key { IsKey self }
    {
        east_part(self.code)
    }

    // The north part.
    pub fn north_part(self) -> u32
        ensures value { result ≡ north_part self }
        ensures key { IsKey self }
    {
        north_part(self.code)
    }

    // The east of the key's point.
    pub fn east(self) -> i32
        ensures value { result ≡ (point_of self).east }
        ensures key { IsKey self }
    {
        self.east_part() as i32 - SPAN
    }

    // The north of the key's point.
    pub fn north(self) -> i32
        ensures value { result ≡ (point_of self).north }
        ensures key { IsKey self }
    {
        self.north_part() as i32 - SPAN
    }

    // The key of the point reflected through the datum.
    pub fn reflected(self) -> Key
        ensures value { result ≡ reflected self }
        ensures key { IsKey self }
    {
        Key {
            code: GREATEST_CODE - self.code,
        }
    }

    // The sum of the parts, and below it the east part.
    #[tactic(auto, unfolding(crate::specs::Sums::sum_of))]
    pub fn sum(self) -> u32
        ensures value { result ≡ sum_of self }
        ensures key { IsKey self }
    {
        (self.north_part() + self.east_part()) * STRIDE + self.east_part()
    }

    // The north part less the east part, and a stride, and below it the east part.
    #[tactic(auto, unfolding(crate::specs::Sums::difference_of))]
    pub fn difference(self) -> u32
        ensures value { result ≡ difference_of self }
        ensures key { IsKey self }
    {
        (self.north_part() + (STRIDE - self.east_part())) * STRIDE + self.east_part()
    }

    // The key of a sum.
    pub fn of_sum(sum: u32) -> Key
        requires { Encoded sum_of sum }
        ensures { Decoded sum_of sum result }
    {
        let east = sum % STRIDE;
        Key {
            code: east * STRIDE + (sum / STRIDE - east),
        }
    }

    // The key of a difference.
    pub fn of_difference(difference: u32) -> Key
        requires { Encoded difference_of difference }
        ensures { Decoded difference_of difference result }
    {
        let east = difference % STRIDE;
        Key {
            code: east * STRIDE + (difference / STRIDE + east - STRIDE),
        }
    }
}

// A list of numbers that are keys. No list of `Key`: it stands in a buffer that is lent, which may hold any numbers
// until it is written. Of a list that is lent to be changed the clause `AllKeys` says it. That a list is not empty is a
// clause where it must not be.
#[derive(Clone, Copy)]
pub struct Keys<'a> {
    pub codes: &'a [u32],
    ghost all_keys: { All IsKey codes.now } by { Prim.hlevel (props, All-prop) },
}

impl<'a> Keys<'a> {
    // The key at a place. Loops go over places by it: over the numbers, each would need an answer of its own that what
    // it reads is a key.
    pub fn at(self, i: usize) -> Key
        requires { i < length self.codes.now }
        ensures { result ≡ get_or self.entry.codes.now i 0 }
    {
        Key::from_code(self.codes[i])
    }
}

// Tells a proof of each key of a list that its point is in the span. Nothing is computed.
pub fn all_keys(keys: &[Key])
    ensures { All IsKey keys.now }
{
    for key in keys {
        let _ = &key.code;
    }
}

// The turn from one point over a second to a third. No `Ordering`: Less would not say to which side it is.
#[derive(Clone, Copy, Debug, PartialEq, Eq)]
pub enum Turn {
    Right,
    Straight,
    Left,
}

// Twice the signed area of the triangle of three keys' points, in 64-bit numbers.
pub fn signed_area(a: Key, b: Key, c: Key) -> i64
    ensures value { result ≡ signed_area (point_of a) (point_of b) (point_of c) }
    ensures keys { IsKey a × IsKey b × IsKey c }
{
    let ae = i64::from(a.east());
    let an = i64::from(a.north());
    let be = i64::from(b.east());
    let bn = i64::from(b.north());
    let ce = i64::from(c.east());
    let cn = i64::from(c.north());
    (be - ae) * (cn - an) - (bn - an) * (ce - ae)
}

// Whether three keys' points turn right.
pub fn turns_right(a: Key, b: Key, c: Key) -> bool
    ensures { result ≡ lt_z (signed_area (point_of a) (point_of b) (point_of c)) (pos 0) }
{
    signed_area(a, b, c) < 0
}

// Whether three keys' points turn left.
pub fn turns_left(a: Key, b: Key, c: Key) -> bool
    ensures { result ≡ lt_z (pos 0) (signed_area (point_of a) (point_of b) (point_of c)) }
{
    0 < signed_area(a, b, c)
}

// The turn of three keys' points.
pub fn turn_of(a: Key, b: Key, c: Key) -> Turn
    ensures { result ≡ turn_of (signed_area (point_of a) (point_of b) (point_of c)) }
{
    match signed_area(a, b, c).cmp(&0) {
        Ordering::Less => Turn::Right,
        Ordering::Equal => Turn::Straight,
        Ordering::Greater => Turn::Left,
    }
}

// How far east of a's point b's lies.
pub fn east_between(a: Key, b: Key) -> i32
    ensures value { result ≡ (point_of b).east -ℤ (point_of a).east }
    ensures keys { IsKey a × IsKey b }
{
    b.east() - a.east()
}

// How far north of a's point b's lies.
pub fn north_between(a: Key, b: Key) -> i32
    ensures value { result ≡ (point_of b).north -ℤ (point_of a).north }
    ensures keys { IsKey a × IsKey b }
{
    b.north() - a.north()
}

// The dot product of the vectors from a's point to b's and to c's, in 32-bit numbers.
pub fn dot_product(a: Key, b: Key, c: Key) -> i32
    ensures value { result ≡ dot_product (point_of a) (point_of b) (point_of c) }
    ensures keys { IsKey a × IsKey b × IsKey c }
{
    let be = east_between(a, b);
    let bn = north_between(a, b);
    let ce = east_between(a, c);
    let cn = north_between(a, c);
    be * ce + bn * cn
}

// Twice the area of three keys' points that turn left or not at all, as a number without a sign.
pub fn positive_area(a: Key, b: Key, c: Key) -> u32
    requires { pos 0 ≤ℤ signed_area (point_of a) (point_of b) (point_of c) }
    ensures { pos result ≡ signed_area (point_of a) (point_of b) (point_of c) }
{
    signed_area(a, b, c) as u32
}

// The dot product of three keys' points where it is not less than 0, as a number without a sign.
pub fn positive_dot_product(a: Key, b: Key, c: Key) -> u32
    requires { pos 0 ≤ℤ dot_product (point_of a) (point_of b) (point_of c) }
    ensures { pos result ≡ dot_product (point_of a) (point_of b) (point_of c) }
{
    dot_product(a, b, c) as u32
}

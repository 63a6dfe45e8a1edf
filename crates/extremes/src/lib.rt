// The least key of a list and the greatest; and the keys that are no vertices, since others lie in all four quadrants
// round them, dropped before the rest are sorted.
// What stands at the front of a lent buffer is counted, not given back as a slice, as in crate chains.
#![tactic(auto)]

ghost use Rattle.std.specs.Prelude.{◌≡◌, ◌<◌, ◌≤◌, true, false, length, map};
ghost use Rattle.turns.specs.Keys.{IsKey, AllKeys};
ghost use Rattle.orders.specs.Order.{get};
ghost use Rattle.turns.specs.Reflection.{reflected};
ghost use Rattle.extremes.specs.Inner.{EndsOf, Lesser, Greater, FarKeys, Bounds, InRectangle, Kept, Outer};

use codes::Coded;
use turns::{Key, Keys};

// Fewer keys than these are all kept. At these many, dropping nearly halves the time for points at random and costs
// hardly any on a circle, as measured.
const DROP_FROM: usize = 48;

// So many keys of a list are looked at first; and so many of them lie in the rectangle between four others, if it pays
// to drop keys, as measured.
const SAMPLE: usize = 24;

// That it pays to drop keys is told by so many of the sample in the rectangle.
const FILLED: usize = 2;

// Four keys, each far out in one of the four directions between east and north.
#[derive(Clone, Copy)]
pub struct Far {
    pub ne: Key,
    pub nw: Key,
    pub sw: Key,
    pub se: Key,
}

// A rectangle, by the parts of keys: from west to before east, and from south to before north.
#[derive(Clone, Copy)]
struct Rectangle {
    west: u32,
    east: u32,
    south: u32,
    north: u32,
}

// The keys that are farthest out: with the greatest and the least sum of coordinates, and the greatest and the least
// difference. Only that they are keys of the list is promised: which they are decides how many others can be dropped.
fn find_far(keys: Keys) -> Far
    requires { 1 ≤ length keys.codes.now }
    ensures { FarKeys keys.entry.codes.now result }
{
    let first = keys.at(0);
    let mut ne = first.sum();
    let mut nw = first.difference();
    let mut sw = ne;
    let mut se = nw;
    for i in 0..keys.codes.len() {
        let key = keys.at(i);
        let sum = key.sum();
        let difference = key.difference();
        ne = ne.max(sum);
        nw = nw.max(difference);
        sw = sw.min(sum);
        se = se.min(difference);
    }
    Far {
        ne: Key::of_sum(ne),
        nw: Key::of_difference(nw),
        sw: Key::of_sum(sw),
        se: Key::of_difference(se),
    }
}

// The largest rectangle that does not reach as far as the four keys. No function serves sure_boxes::between as well:
// this rectangle is of parts of keys and half open, that box of metres and closed.
fn between_far(far: Far) -> Rectangle
    ensures { Bounds far result }
{
    let west = far.nw.east_part().max(far.sw.east_part()) + 1;
    let east = far.ne.east_part().min(far.se.east_part());
    let south = far.sw.north_part().max(far.se.north_part()) + 1;
    let north = far.ne.north_part().min(far.nw.north_part());
    Rectangle {
        west,
        east,
        south,
        north,
    }
}

// Whether x is from low to before high, in one test: x less low is less than the gap, where what is below low wraps.
fn is_from(x: u32, low: u32, high: u32) -> bool
    ensures { result ≡ true → (low ≤ x) × (x < high) }
{
    x.wrapping_sub(low) < high.saturating_sub(low)
}

// Whether a key, by its number, is outside the rectangle; if not, it is in it.
fn is_outside(key: u32, r: Rectangle) -> bool
    ensures { result ≡ false → InRectangle key r }
{
    let inside = is_from(turns::east_part(key), r.west, r.east)
        & is_from(turns::north_part(key), r.south, r.north);
    !inside
}

// Moves the keys that are not in the rectangle to the front, and counts them.
fn keep_outside(keys: &mut [u32], r: Rectangle) -> usize
    ensures { Kept keys.old keys.new result (λ k. InRectangle k r) }
{
    let mut n: usize = 0;
    // By index: keys is written behind where it is read.
    for i in 0..keys.len() {
        let key = keys[i];
        keys[n] = key;
        n += usize::from(is_outside(key, r));
    }
    n
}

// How many of some keys are not in the rectangle.
fn count_outside(keys: &[u32], r: Rectangle) -> usize
    ensures { result ≤ length keys.now }
{
    keys.iter().filter(|key| is_outside(**key, r)).count()
}

// Whether a rectangle has room for keys.
fn is_open(r: Rectangle) -> bool {
    (r.west < r.east) & (r.south < r.north)
}

// Whether some keys lie round others, so that it pays to look for those that can be dropped: where points are in line
// or on a circle, none do.
fn is_filled(sample: Keys) -> bool
    requires { 1 ≤ length sample.codes.now }
{
    let r = between_far(find_far(sample));
    is_open(r) && count_outside(sample.codes, r) + FILLED <= sample.codes.len()
}

// Moves keys to the front, and counts them, so that each other has some of these in all four quadrants round it, and
// is no vertex. Where a sample shows that few would be dropped, all are kept at once.
pub fn drop_inner(keys: &mut [u32]) -> usize
    requires { (1 ≤ length keys.old) × AllKeys (get keys.old) (length keys.old) }
    ensures { Outer keys.old keys.new result }
{
    if keys.len() < DROP_FROM {
        return keys.len();
    }
    let sample = &keys[..SAMPLE];
    if !is_filled(Keys { codes: sample }) {
        return keys.len();
    }
    let far = find_far(Keys { codes: keys });
    let r = between_far(far);
    keep_outside(keys, r)
}

// The least and the greatest of some numbers, or of some keys. (That they differ is a clause where a line or a chain is
// drawn between them: of one point alone both are the same.)
#[derive(Clone, Copy)]
pub struct Ends<T = Key> {
    pub first: T,
    pub last: T,
}

impl Ends<u32> {
    // The same as keys, where both are.
    pub fn keys(self) -> Ends
        requires { IsKey self.first × IsKey self.last }
        ensures first { result.first ≡ self.first }
        ensures last { result.last ≡ self.last }
    {
        Ends {
            first: Key::from_code(self.first),
            last: Key::from_code(self.last),
        }
    }
}

impl Ends<Key> {
    // The least and the greatest of the reflected keys. By reference: where a struct of keys is passed by value and
    // then used again, the kit makes no proof yet.
    pub fn reflected(&self) -> Ends
        ensures first { result.first ≡ reflected self.now.last }
        ensures last { result.last ≡ reflected self.now.first }
        ensures keys { IsKey self.now.first × IsKey self.now.last }
    {
        Ends {
            first: self.last.reflected(),
            last: self.first.reflected(),
        }
    }
}

// The lesser of two values. Of std's `min` a proof would have to know that the order of T is that of its codes.
fn lesser<T: Coded>(a: T, b: T) -> T
    ensures { Lesser (T.code a) (T.code b) (T.code result) }
{
    if b.code() < a.code() { b } else { a }
}

// The greater of two values, likewise.
fn greater<T: Coded>(a: T, b: T) -> T
    ensures { Greater (T.code a) (T.code b) (T.code result) }
{
    if a.code() < b.code() { b } else { a }
}

// The least value and the greatest.
#[tactic(auto, using(codes::proofs::Codes::code_read))]
pub fn find_ends<T: Coded>(values: &[T]) -> Ends<T>
    requires { 1 ≤ length values.now }
    ensures { EndsOf (map T.code values.now) (T.code result.first) (T.code result.last) }
{
    let mut first = values[0];
    let mut last = first;
    for &value in values {
        first = lesser(first, value);
        last = greater(last, value);
    }
    Ends { first, last }
}

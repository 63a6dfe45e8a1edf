// The keys that the upper chain of the corners of boxes is made of, in order. A northmost key cuts the way from the
// least key to the greatest in two: before it only corners of one name count, the north-western ones, and behind it
// only those of another, the north-eastern ones; and of these only the keys outside the line to it, or from it.
// What stands at the front of a lent buffer is counted, not given back as a slice, as in crate chains.
#![tactic(auto)]

ghost use Rattle.std.specs.Prelude.{◌≡◌, ◌≤◌, ◌<◌, true, false, length};
ghost use Rattle.turns.specs.Keys.{IsKey};
ghost use Rattle.lines.specs.Lines.{LineOf};
ghost use Rattle.quarters.specs.Quarters.{FurtherNorth, Northmost, Outside, Quarter, SortedQuarter};
ghost use Rattle.quarters.specs.Quarters.{PeakPut, UpperInput, UpperList};

use codes::Coded;
use extremes::Ends;
use lines::Line;
use turns::{Key, Keys};

// The way from one key to another, and the line that it lies on.
#[derive(Clone, Copy)]
struct Way {
    from: Key,
    to: Key,
    line: Line,
    ghost between_keys: { IsKey from × IsKey to × LineOf from to line },
}

impl Way {
    // The way from one key to another.
    fn new(from: Key, to: Key) -> Way
        ensures from { result.from ≡ from }
        ensures to { result.to ≡ to }
    {
        Way {
            from,
            to,
            line: lines::line_through(from, to),
        }
    }

    // Whether a key is outside: strictly left of the line, and strictly between the way's two keys in order. Few keys
    // are, so that the side is tested before the order; but first whether it is the way's last key, as all keys of
    // equal boxes are. (By reference, as `Ends::reflected`.)
    fn is_outside(&self, key: Key) -> bool
        ensures outside { result ≡ true → Outside self.now.from self.now.to key }
        ensures not_outside { result ≡ false → Outside self.now.from self.now.to key → ⊥ }
    {
        if key == self.to {
            return false;
        }
        if lines::side_of(self.line, key) <= 0 {
            return false;
        }
        self.from < key && key < self.to
    }
}

// The one of two keys that is further north, or the first. (No `max_by_key` over the list: a proof would have to take
// `Northmost` from what is promised of an `Option` and an iterator, and that is no plainer.)
fn further_north(a: Key, b: Key) -> Key
    ensures { FurtherNorth a b result }
{
    if a.north_part() < b.north_part() {
        return b;
    }
    a
}

// A northmost key of a list.
fn northmost(keys: Keys) -> Key
    requires { 1 ≤ length keys.codes.now }
    ensures { Northmost keys.entry.codes.now result }
{
    let mut peak = keys.at(0);
    for i in 1..keys.codes.len() {
        peak = further_north(peak, keys.at(i));
    }
    peak
}

// Writes the keys of a list that are outside a way to the front of out, and counts them. (Not every key is written, so
// that no iterator over out goes along.)
fn keep_outside(keys: Keys, way: Way, out: &mut [u32]) -> usize
    requires { length keys.codes.now ≤ length out.old }
    ensures { Quarter keys.entry.codes.now way.from way.to out.new result }
{
    // A copy of its own, which the loop keeps in registers.
    let own = way;
    let mut count: usize = 0;
    for i in 0..keys.codes.len() {
        let key = keys.at(i);
        if own.is_outside(key) {
            out[count] = key.code();
            count += 1;
        }
    }
    count
}

// The same in order. What scratch holds is lost. A call of its own for each half: inlined, the loop spills registers.
#[inline(never)]
fn sort_outside(keys: Keys, way: Way, out: &mut [u32], scratch: &mut [u32]) -> usize
    requires { (length keys.codes.now ≤ length out.old) × (length keys.codes.now ≤ length scratch.old) }
    ensures { SortedQuarter keys.entry.codes.now way.from way.to out.new result }
{
    let count = keep_outside(keys, way, out);
    sorting::sort_keys(&mut out[..count], scratch);
    count
}

// Writes a key behind the first `count` of out, if it is strictly between the ends, and counts it.
fn put_peak(ends: &Ends, peak: Key, out: &mut [u32], count: usize) -> usize
    requires { count < length out.old }
    ensures { PeakPut ends.now.first peak ends.now.last out.old count out.new result }
{
    if peak <= ends.first {
        return count;
    }
    if ends.last <= peak {
        return count;
    }
    out[count] = peak.code();
    count + 1
}

// The keys for the upper chain of boxes' corners between their ends, in order, at the front of out: of the corners that
// count before a northmost one of them, and of those that count behind it. What scratch holds is lost.
pub fn upper_list(
    before: Keys,
    behind: Keys,
    ends: &Ends,
    out: &mut [u32],
    scratch: &mut [u32],
) -> usize
    requires { UpperInput before.codes.now behind.codes.now ends.now.first ends.now.last out.old scratch.old }
    ensures { UpperList before.entry.codes.now behind.entry.codes.now ends.now.first ends.now.last out.new result }
{
    let peak = northmost(before);
    let count = sort_outside(before, Way::new(ends.first, peak), out, scratch);
    let at = put_peak(ends, peak, out, count);
    at + sort_outside(behind, Way::new(peak, ends.last), &mut out[at..], scratch)
}

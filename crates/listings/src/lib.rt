// Vertices in a lent buffer of numbers: east and north per vertex, and zeros after the last one.
#![tactic(auto)]

ghost use Rattle.std.specs.Prelude.{◌++◌, map, ◌≡◌, ◌-◌, ◌*◌, ◌≤◌, length, take, drop};
ghost use Rattle.turns.specs.Keys.{point_of};
ghost use Rattle.listings.specs.Listings.{flat, zeros, over_front};

use turns::Keys;

// Writes east and north of each key's point over the front of answer. (By index: over `chunks_exact_mut(2)` with the
// keys the invariant would be of the two iterators' states, and not of answer.)
pub fn write_vertices(keys: Keys, answer: &mut [i32])
    requires { length keys.codes.now * 2 ≤ length answer.old }
    ensures { answer.new ≡ over_front (flat (map point_of keys.entry.codes.now)) answer.old }
{
    for k in 0..keys.codes.len() {
        let key = keys.at(k);
        answer[k * 2] = key.east();
        answer[k * 2 + 1] = key.north();
    }
}

// Writes zeros over answer from the number at `from` on, up to the one before `to`.
pub fn clear(from: usize, to: usize, answer: &mut [i32])
    requires { (from ≤ to) × (to ≤ length answer.old) }
    ensures { answer.new ≡
        take from answer.old ++ zeros (to - from) ++ drop to answer.old }
{
    answer[from..to].fill(0);
}

// The upper chain of keys in order, by Andrew's monotone chain. A key stands for a point of the span, and the order of
// keys is that of points (crate turns).
// What is written is counted, not given back as a slice: that would keep the buffer lent, whose rest is scratch.
#![tactic(auto)]

ghost use Rattle.std.specs.Prelude.{◌+◌, ◌≤◌, ◌<◌, length};
ghost use Rattle.orders.specs.Order.{get, Sorted};
ghost use Rattle.chains.specs.Chains.{Chain, Popped, Amid, framed};

use codes::Coded;
use extremes::Ends;
use turns::{Key, Keys};

// How many of some vertices are left, where those go at which the way to r would not turn right.
fn pop(stack: Keys, r: Key) -> usize
    requires { 1 ≤ length stack.codes.now }
    ensures { Popped (get stack.entry.codes.now) (length stack.entry.codes.now) r result }
{
    for n in (1..stack.codes.len()).rev() {
        let a = stack.at(n - 1);
        let b = stack.at(n);
        if turns::turns_right(a, b, r) {
            return n + 1;
        }
    }
    1
}

// The upper chain of keys in order between two ends: its vertices, in order, are the first of stack. All keys are
// strictly between the ends.
pub fn upper_chain(ends: &Ends, keys: Keys, stack: &mut [u32]) -> usize
    requires keys_in_bounds { (length keys.codes.now + 2 ≤ length stack.old) × (ends.now.first < ends.now.last) }
    requires sorted { Sorted (get keys.codes.now) 0 (length keys.codes.now)
        × Amid (get keys.codes.now) (length keys.codes.now) ends.now.first ends.now.last }
    ensures { Chain (framed ends.now.first keys.entry.codes.now ends.now.last) (length keys.entry.codes.now + 2)
        (get stack.new) result }
{
    stack[0] = ends.first.code();
    let mut k: usize = 1;
    for i in 0..keys.codes.len() {
        let r = keys.at(i);
        let n = pop(Keys { codes: &stack[..k] }, r);
        stack[n] = r.code();
        k = n + 1;
    }
    let n = pop(Keys { codes: &stack[..k] }, ends.last);
    stack[n] = ends.last.code();
    n + 1
}

// Runs the verdict and the word alone on each case of standard input, and prints what each call answers. The reasons
// are the program's choice, so they are checked by the tests of the bindings.
//
// A case is: how many numbers are new at the front of the box list, those numbers, how many of the list are lent, and
// the plug. oracle/write_cases.py writes `stdin`, and `stdout` from docs/SCOPE.md.
#![tactic(auto)]

use plane::Point;
use rounds::{Refusal, Word};
use std::io::{self, Read};

// How many numbers the box list has.
const LIST: usize = 4104;

fn print_reply(output: &impl Print, reply: Result<Word, Refusal>) -> io::Result<()> {
    match reply {
        Ok(word) => print!(output; "{word}"),
        Err(refusal) => print!(output; "{refusal}"),
    }
}

fn run_case(input: &mut impl Read, output: &impl Print, list: &mut [i32]) -> io::Result<()> {
    cases::read_over(input, list);
    let boxes = &list[..cases::read_front(input, list)];
    let east = cases::read_number(input);
    let north = cases::read_number(input);
    let plug = Point { east, north };
    let verdict = verdicts::verdict_on(boxes, plug);
    print_reply(output, verdict.map(|verdict| verdict.word()))?;
    print!(output; ", ")?;
    print_reply(output, verdicts::word_on(boxes, plug))?;
    println!(output; "")
}

// Each driver has this loop: a closure over its buffers, passed to one loop, would be no plainer.
fn main(rt: HostRuntime) -> io::Result<()> {
    let mut input = rt.stdin();
    let output = rt.stdout();
    let mut list = [0i32; LIST];
    let count = cases::read_count(&mut input);
    for _ in 0..count {
        run_case(&mut input, &output, &mut list)?;
    }
    Ok(())
}

// Runs both polygon calls on each case of standard input, and prints the reply and every number of the lent buffer.
//
// A case is: how many numbers are new at the front of the box list, those numbers, how many of the list are lent, and
// how many of each call's buffer. oracle/write_cases.py writes `stdin`, and `stdout` from docs/SCOPE.md.
#![tactic(auto)]

use rounds::Refusal;
use std::io::{self, Read};

// What stands in a buffer before a call.
const MARK: i32 = 77777;

// How many numbers the box list and a buffer have.
const LIST: usize = 4104;

const BUFFER: usize = 8200;

// Prints what a call answers, its name and counts or a refusal, and every number of its buffer.
fn print_reply<const N: usize>(
    output: &impl Print,
    name: &str,
    reply: Result<[usize; N], Refusal>,
    answer: &[i32],
) -> io::Result<()> {
    match reply {
        Ok(counts) => {
            print!(output; "{name}")?;
            for count in counts {
                cases::print_number(output, count)?;
            }
        }
        Err(refusal) => print!(output; "{refusal}")?,
    }
    print!(output; ":")?;
    cases::print_numbers(output, answer)?;
    println!(output; "")
}

fn run_outer(input: &mut impl Read, output: &impl Print, boxes: &[i32]) -> io::Result<()> {
    let mut buffer = [MARK; BUFFER];
    let room = cases::read_front(input, &buffer);
    let answer = &mut buffer[..room];
    let reply = areas::outer_polygon(boxes, answer);
    print_reply(output, "outer", reply.map(|count| [count]), answer)
}

fn run_corners(input: &mut impl Read, output: &impl Print, boxes: &[i32]) -> io::Result<()> {
    let mut buffer = [MARK; BUFFER];
    let room = cases::read_front(input, &buffer);
    let answer = &mut buffer[..room];
    let reply = areas::corner_polygons(boxes, answer);
    let counts = reply.map(|n| [n.southwest, n.southeast, n.northeast, n.northwest]);
    print_reply(output, "corners", counts, answer)
}

fn run_case(input: &mut impl Read, output: &impl Print, list: &mut [i32]) -> io::Result<()> {
    cases::read_over(input, list);
    let boxes = &list[..cases::read_front(input, list)];
    run_outer(input, output, boxes)?;
    run_corners(input, output, boxes)
}

// Each driver has this loop: a closure over its buffers, passed to one loop, would be no plainer.
fn main(rt: HostRuntime) -> io::Result<()> {
    let mut input = rt.stdin();
    let output = rt.stdout();
    let mut list = [0i32; LIST];
    let count = cases::read_count(&mut input);
    for _ in 0..count {
        run_case(&mut input, &output, &mut list)?;
    }
    Ok(())
}

// Runs the reader on each case of standard input, and the writer on what the reader's buffers then hold, and prints
// each reply and everything in the lent buffers.
//
// A case is: how many bytes are new at the front of the file, those bytes, how many of the file are lent, and how
// many of the buffers of boxes, of plugs and of bytes written. oracle/write_cases.py writes `stdin`, and `stdout`
// from docs/SCOPE.md.
#![tactic(auto)]

use std::io::{self, Read};

// What stands in a buffer before a call.
const MARK: i32 = -7;

const MARK_BYTE: u8 = 0xA5;

// How many bytes and numbers the file and the buffers have.
const FILE: usize = 18480;

const EDGES: usize = 4104;

const COORDINATES: usize = 16;

const WRITTEN: usize = 128;

fn run_reader(
    output: &impl Print,
    file: &[u8],
    boxes: &mut [i32],
    plugs: &mut [i32],
) -> io::Result<()> {
    match files::read_round(file, boxes, plugs) {
        Ok(counts) => print!(output; "read {} {}", counts.boxes, counts.plugs)?,
        Err(refusal) => print!(output; "{refusal}")?,
    }
    print!(output; ": boxes")?;
    cases::print_numbers(output, boxes)?;
    print!(output; ", plugs")?;
    cases::print_numbers(output, plugs)?;
    println!(output; "")
}

fn run_writer(
    output: &impl Print,
    boxes: &[i32],
    plugs: &[i32],
    file: &mut [u8],
) -> io::Result<()> {
    match files::write_round(boxes, plugs, file) {
        Ok(bytes) => print!(output; "written {bytes}")?,
        Err(refusal) => print!(output; "{refusal}")?,
    }
    print!(output; ": ")?;
    cases::print_bytes(output, file)?;
    println!(output; "")
}

fn run_case(input: &mut impl Read, output: &impl Print, file: &mut [u8]) -> io::Result<()> {
    cases::read_bytes_over(input, file);
    let file = &file[..cases::read_front(input, file)];
    let mut box_buffer = [MARK; EDGES];
    let mut plug_buffer = [MARK; COORDINATES];
    let mut file_buffer = [MARK_BYTE; WRITTEN];
    let boxes_room = cases::read_front(input, &box_buffer);
    let boxes = &mut box_buffer[..boxes_room];
    let plugs_room = cases::read_front(input, &plug_buffer);
    let plugs = &mut plug_buffer[..plugs_room];
    let written_room = cases::read_front(input, &file_buffer);
    let written = &mut file_buffer[..written_room];
    run_reader(output, file, boxes, plugs)?;
    run_writer(output, boxes, plugs, written)
}

// Each driver has this loop: a closure over its buffers, passed to one loop, would be no plainer.
fn main(rt: HostRuntime) -> io::Result<()> {
    let mut input = rt.stdin();
    let output = rt.stdout();
    let mut file = [0u8; FILE];
    let count = cases::read_count(&mut input);
    for _ in 0..count {
        run_case(&mut input, &output, &mut file)?;
    }
    Ok(())
}

// The printing program (docs/SCOPE.md 8): it reads a round file on standard input and prints its text, part by part as
// `text_parts` gives them. One byte more than 65,536 is read, so that a longer input is seen. A read or a write that
// fails is told on standard error; where a read fails the text is that of what was read before, and where a write fails
// nothing more is printed.
#![tactic(auto)]

ghost use Rattle.std.specs.Prelude.{OnOk};
ghost use Rattle.std.specs.Io.KnownBytes.{Appends};
ghost use Rattle.texts.specs.Text.{text_of};
ghost use Rattle.print_round.specs.Inputs.{IsPrefixLen, PrintingRoom};

use plug_lines::MOST_VERTICES;
use rounds::MOST_INPUT;
use std::io;
use std::io::{Read, Write};
use text_parts::PIECE_LENGTH;

// One byte more than an input may have.
const READ_LENGTH: usize = MOST_INPUT + 1;

// Reads until the buffer is full, the input ends or a read fails: how many bytes now stand at the front of the buffer,
// and how the last read went.
// A loop over `read`: `read_exact` would not tell how many bytes came before the end.
fn read_input(source: &mut impl Read, buffer: &mut [u8]) -> (usize, io::Result<()>)
    ensures { IsPrefixLen result.0 buffer.new }
{
    let mut done: usize = 0;
    while done < buffer.len() {
        match source.read(&mut buffer[done..]) {
            Ok(0) => break,
            Ok(more) => done += more,
            Err(error) => return (done, Err(error)),
        }
    }
    (done, Ok(()))
}

// Prints the text of an input, its opening first and then the plugs' lines piece by piece, until a write fails.
fn print_text<W: Write>(
    output: &mut W,
    input: &[u8],
    vertices: &mut [u32],
    text: &mut [u8],
) -> io::Result<()>
    requires { PrintingRoom vertices.old text.old }
    ensures { OnOk result (Appends (W.contents output.old) (W.contents output.new) (text_of input.now)) }
{
    let opening = text_parts::open_text(input, vertices, text);
    output.write_all(&text[..opening.bytes])?;
    let mut left = opening.left;
    while let Some(lines) = left {
        let piece = lines.write_next(text);
        output.write_all(&text[..piece.bytes])?;
        left = piece.left;
    }
    Ok(())
}

// Prints the text of an input, and tells a write that fails.
fn print_input(rt: &HostRuntime, input: &[u8]) {
    let mut vertices = [0u32; MOST_VERTICES];
    let mut text = [0u8; PIECE_LENGTH];
    if print_text(&mut rt.stdout(), input, &mut vertices, &mut text).is_err() {
        let _ = eprintln!(rt; "print_round: writing failed");
    }
}

fn main(rt: HostRuntime) {
    let mut input = [0u8; READ_LENGTH];
    let (bytes, reading) = read_input(&mut rt.stdin(), &mut input);
    print_input(&rt, &input[..bytes]);
    if reading.is_err() {
        let _ = eprintln!(rt; "print_round: reading failed");
    }
}

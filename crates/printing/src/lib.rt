// The text of the printing program (docs/SCOPE.md 8.2): from the bytes that it reads to the bytes that it prints. Its
// parts, the opening and pieces of the plugs' lines, are those of crate `text_parts`, one behind another.
#![tactic(auto)]

ghost use Rattle.std.specs.Prelude.{◌*◌, ◌≤◌, length};
ghost use Rattle.texts.specs.Text.{text_of, Wrote};
ghost use Rattle.plug_lines.specs.Steps.{most_plug_line};
ghost use Rattle.text_parts.specs.Steps.{count_left, text_left};
ghost use Rattle.printing.specs.Steps.{TextRoom};

use plug_lines::MOST_VERTICES;
use text_parts::LinesLeft;

// The length of the text's buffer, in which the text of every input has room.
pub const TEXT_LENGTH: usize = 131072;

// Writes the lines of all plugs that are left.
fn write_all_lines(first: Option<LinesLeft>, out: &mut [u8]) -> usize
    requires { most_plug_line * count_left first ≤ length out.old }
    ensures { Wrote (text_left first.entry) out.old result out.new }
{
    // The program has this loop with a sink in place of out, which may fail.
    let mut bytes: usize = 0;
    let mut left = first;
    while let Some(lines) = left {
        let piece = lines.write_next(&mut out[bytes..]);
        bytes += piece.bytes;
        left = piece.left;
    }
    bytes
}

// Writes the whole text of an input, and returns its length.
fn write_whole(file: &[u8], vertices: &mut [u32], text: &mut [u8]) -> usize
    requires { TextRoom vertices.old text.old }
    ensures { Wrote (text_of file.now) text.old result text.new }
{
    let opening = text_parts::open_text(file, vertices, text);
    let n = opening.bytes;
    n + write_all_lines(opening.left, &mut text[n..])
}

// Writes what the printing program prints for an input, and returns its length.
pub fn write_text(file: &[u8], text: &mut [u8; TEXT_LENGTH]) -> usize
    ensures { Wrote (text_of file.now) text.old result text.new }
{
    let mut vertices = [0u32; MOST_VERTICES];
    write_whole(file, &mut vertices, text)
}

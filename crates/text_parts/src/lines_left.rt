// The lines of plugs that are not written yet, and the next piece of them.
ghost use Rattle.std.specs.Prelude.{◌≤◌};
ghost use Rattle.std.proofs.Props.{props};
ghost use mathlib.Core.Sum.{⊎_set};
ghost use Rattle.plane.specs.Props.{All-prop};
ghost use Rattle.text_parts.specs.Waiting.{Waiting};

use plug_words::RoundShapes;

// The most plugs of a piece.
const PIECE: usize = 256;

// The numbers of so many plugs.
const PIECE_NUMBERS: usize = 512;

// The lines of the plugs of a file that are still to be written: of `count` plugs, which are read from `at` on, behind
// `done` that have their lines, and by these shapes.
#[derive(Clone, Copy)]
pub struct LinesLeft<'a> {
    file: &'a [u8],
    pub shapes: RoundShapes<'a>,
    pub at: usize,
    pub done: usize,
    pub count: usize,
    ghost some: { 1 ≤ count },
    ghost waiting: { Waiting file.now shapes at done count } by { Prim.hlevel (props, ⊎_set, All-prop) },
}

// Lines that were written: how many bytes they have, and the lines that are left.
#[derive(Clone, Copy)]
pub struct Piece<'a> {
    pub bytes: usize,
    pub left: Option<LinesLeft<'a>>,
}

impl<'a> LinesLeft<'a> {
    ghost use Rattle.std.specs.Prelude.{◌*◌, ◌≤◌, min, length};
    ghost use Rattle.plug_lines.specs.Steps.{most_plug_line};
    ghost use Rattle.text_parts.specs.Waiting.{most_piece, Waiting};
    ghost use Rattle.text_parts.specs.Steps.{LeftFrom, NextLines};

    // The lines of so many plugs, if there are any.
    pub fn of_plugs(
        file: &'a [u8],
        shapes: RoundShapes<'a>,
        at: usize,
        done: usize,
        count: usize,
    ) -> Option<LinesLeft<'a>>
        requires { Waiting file.now shapes at done count }
        ensures { LeftFrom file.now at done count result }
    {
        if count == 0 {
            return None;
        }
        Some(LinesLeft {
            file,
            shapes,
            at,
            done,
            count,
        })
    }

    // Writes the lines of the next plugs.
    pub fn write_next(self, out: &mut [u8]) -> Piece<'a>
        requires { most_plug_line * min self.count most_piece ≤ length out.old }
        ensures { NextLines self.entry out.old result out.new }
    {
        let mut plugs = [0i32; PIECE_NUMBERS];
        let count = self.count.min(PIECE);
        let next = file_passes::read_plugs(self.file, self.at, count, &mut plugs);
        let bytes = plug_lines::write_lines(self.shapes, self.done, &plugs[..2 * count], out);
        Piece {
            bytes,
            left: LinesLeft::of_plugs(
                self.file,
                self.shapes,
                next,
                self.done + count,
                self.count - count,
            ),
        }
    }
}

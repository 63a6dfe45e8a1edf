// The reader and the writer of the round file (docs/SCOPE.md 5.3, 5.4). No public call has a `requires`.
//
// The reader goes through a file twice, by the passes of crate `file_passes`: it judges the form and counts, changing
// nothing; then the buffers are measured; then it reads boxes and plugs into them. The writer checks, measures and
// writes. What a file is and what both calls promise is said in crate `formats`.
#![tactic(auto)]

ghost use Rattle.std.specs.Prelude.{◌+◌, ◌*◌, ◌/◌, ◌≤◌, ◌≡◌, length};
ghost use mathlib.Core.List.{flat_map};
ghost use Rattle.rounds.specs.Boxes.{boxes_of, plugs_of};
ghost use Rattle.formats.specs.Format.{box_length, plug_length, box_record, plug_record};
ghost use Rattle.formats.specs.Promises.{RoundRead, RoundWritten};
ghost use Rattle.file_records.specs.Records.{over};

use boxes::Boxes;
use file_records::{BOX_LENGTH, END_MARK, MARK_LENGTH, PLUG_LENGTH};
use formats::Counts;
use rounds::Refusal;

// Reads a round file into a buffer of boxes and one of plugs, and returns both counts. It judges form only.
pub fn read_round(file: &[u8], boxes: &mut [i32], plugs: &mut [i32]) -> Result<Counts, Refusal>
    ensures { RoundRead file.now boxes.old plugs.old result
        boxes.new plugs.new }
{
    let counts = file_passes::judge_form(file)?;
    checks::check_buffer(4 * counts.boxes, boxes.len())?;
    checks::check_buffer(2 * counts.plugs, plugs.len())?;
    let at = file_passes::read_boxes(file, boxes);
    file_passes::read_plugs(file, at, counts.plugs, plugs);
    Ok(counts)
}

// Writes every box, from the front on.
fn write_boxes(boxes: Boxes, file: &mut [u8])
    requires { box_length * (length boxes.numbers.now / 4) ≤ length file.old }
    ensures { file.new ≡
        over file.old 0 (flat_map box_record (boxes_of boxes.entry.numbers.now)) }
{
    for k in 0..boxes.len() {
        file_records::write_box(boxes.at(k), file, k * BOX_LENGTH);
    }
}

// Writes every plug, from an offset on. Beside `write_boxes`: one function would take the record's writer as a closure.
fn write_plugs(plugs: &[i32], file: &mut [u8], at: usize)
    requires { at + plug_length * (length plugs.now / 2) ≤ length file.old }
    ensures { file.new ≡
        over file.old at (flat_map plug_record (plugs_of plugs.now)) }
{
    for k in 0..plugs.len() / 2 {
        file_records::write_plug(boxes::plug_at(plugs, k), file, at + k * PLUG_LENGTH);
    }
}

// Writes a round as a file without notes, and returns the byte count.
pub fn write_round(boxes: &[i32], plugs: &[i32], file: &mut [u8]) -> Result<usize, Refusal>
    ensures { RoundWritten boxes.now plugs.now file.old result file.new }
{
    let accepted = box_checks::check_boxes(boxes)?;
    checks::check_plugs(plugs)?;
    let after_boxes = BOX_LENGTH * accepted.len();
    let after_plugs = after_boxes + PLUG_LENGTH * (plugs.len() / 2);
    let needed = after_plugs + MARK_LENGTH;
    checks::check_buffer(needed, file.len())?;
    write_boxes(accepted, file);
    write_plugs(plugs, file, after_boxes);
    file_records::write_mark(END_MARK, file, after_plugs);
    Ok(needed)
}

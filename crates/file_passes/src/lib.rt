// The passes of the reader over a round file (docs/SCOPE.md 5.3, 6.4), each by `file_records::next_record`: one judges
// the form and counts; one reads the boxes of a well-formed file; one reads some of its plugs, from an offset on.
// A pass is a loop, since records are of several lengths: an offset leads from one to the next.
#![tactic(auto)]

ghost use Rattle.std.specs.Prelude.{◌≡◌, length};
ghost use Rattle.formats.specs.Content.{content_of};
ghost use Rattle.file_passes.specs.Steps.{judgement, BoxRoom, BoxesRead, PlugRoom, PlugsRead};

use file_records::{MARK_LENGTH, Record};
use formats::Counts;
use rounds::Refusal;

// Judges the form of a file and counts its boxes and plugs.
pub fn judge_form(file: &[u8]) -> Result<Counts, Refusal>
    ensures { result ≡ judgement file.now }
{
    let mut at: usize = 0;
    let mut counts = Counts { boxes: 0, plugs: 0 };
    loop {
        match file_records::next_record(file, at, 0 < counts.plugs)? {
            Record::Box(next) => {
                counts.boxes += 1;
                at = next;
            }
            Record::Plug(next) => {
                counts.plugs += 1;
                at = next;
            }
            Record::Note(next) => at = next,
            Record::End => return Ok(counts),
        }
    }
}

// Reads the boxes of a well-formed file to the front of a buffer, and returns the offset of its first plug, or of its
// end where it has none.
pub fn read_boxes(file: &[u8], boxes: &mut [i32]) -> usize
    requires { BoxRoom (content_of file.now) (length boxes.old) }
    ensures { BoxesRead file.now boxes.old result boxes.new }
{
    let mut at: usize = 0;
    let mut edge: usize = 0;
    loop {
        match file_records::next_record(file, at, false) {
            Ok(Record::Box(next)) => {
                file_records::put_numbers(file, at + MARK_LENGTH, &mut boxes[edge..edge + 4]);
                edge += 4;
                at = next;
            }
            Ok(Record::Note(next)) => at = next,
            Ok(Record::Plug(_)) => return at,
            Ok(Record::End) => return at,
            Err(_) => return at,
        }
    }
}

// Reads so many plugs of a well-formed file, from an offset on, to the front of a buffer, and returns the offset
// behind them. (The count stands beside the slice, which is of numbers: cut to them, it would be halved again here.)
pub fn read_plugs(file: &[u8], from: usize, count: usize, plugs: &mut [i32]) -> usize
    requires { PlugRoom file.now from count (length plugs.old) }
    ensures { PlugsRead file.now from count plugs.old result plugs.new }
{
    let mut at = from;
    let mut k: usize = 0;
    while k < count {
        match file_records::next_record(file, at, true) {
            Ok(Record::Plug(next)) => {
                file_records::put_numbers(file, at + MARK_LENGTH, &mut plugs[k * 2..k * 2 + 2]);
                k += 1;
                at = next;
            }
            Ok(Record::Note(next)) => at = next,
            Ok(Record::Box(next)) => at = next,
            Ok(Record::End) => return at,
            Err(_) => return at,
        }
    }
    at
}

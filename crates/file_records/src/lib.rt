// The records of the round file (docs/SCOPE.md 5.1), one at a time: what stands at an offset, and its numbers; a box,
// a plug and a mark written at an offset. Crate `formats` says what a record is.
// A file and an offset stay two arguments: the passes return and take offsets, and would take a struct apart again.
#![tactic(auto)]

ghost use Rattle.std.specs.Prelude.{◌+◌, ◌*◌, ◌≤◌, ◌<◌, false, ◌≡◌, ◌++◌, length};
ghost use mathlib.Core.List.{flat_map};
ghost use Rattle.formats.specs.Format.{mark_length, box_length, plug_length, note_kind};
ghost use Rattle.formats.specs.Format.{mark_bytes, number_bytes, box_record, plug_record};
ghost use Rattle.formats.specs.Format.{mark_at, number_at};
ghost use Rattle.formats.specs.Content.{stops_before};
ghost use Rattle.file_records.specs.Records.{refused_or, record_of, record_at, numbers_at, over};

use plane::Point;
use rounds::{Box, Cause, Refusal};

// Marks are numbers, as a note has any of 256: an enum of marks would be matched twice, from its number and by kind.

// A box's mark.
const BOX_MARK: u16 = 0x5B01;

// A plug's mark.
const PLUG_MARK: u16 = 0x5B02;

// The end's mark.
pub const END_MARK: u16 = 0x5B00;

// The first mark of notes.
const FIRST_NOTE_MARK: u16 = 0x5C00;

// The last mark of notes.
const LAST_NOTE_MARK: u16 = 0x5CFF;

// The bytes of a mark, which are all that the end has.
pub const MARK_LENGTH: usize = 2;

// The bytes of a box: its mark and four numbers.
pub const BOX_LENGTH: usize = 18;

// The bytes of a plug: its mark and two numbers.
pub const PLUG_LENGTH: usize = 10;

// The bytes of a note's mark and length byte, before those that it counts.
const NOTE_HEAD_LENGTH: usize = 3;

// The bytes of a number.
const NUMBER_LENGTH: usize = 4;

// A record at an offset of a file, with the offset after it.
#[derive(Clone, Copy, Debug, PartialEq, Eq)]
pub enum Record {
    Box(usize),
    Plug(usize),
    Note(usize),
    End,
}

// The mark at an offset.
fn mark_at(file: &[u8], at: usize) -> u16
    requires { at + 1 < length file.now }
    ensures { result ≡ mark_at file.now at }
{
    u16::from_be_bytes([file[at], file[at + 1]])
}

// A record that ends at `end`, where the file reaches so far.
fn whole(file: &[u8], at: usize, end: usize, found: Record) -> Result<Record, Refusal>
    ensures { result ≡ refused_or (stops_before end file.now at) found }
{
    if file.len() < end {
        return Err(Refusal {
            cause: Cause::CutShort,
            place: at,
        });
    }
    Ok(found)
}

// The note at an offset, where its mark stands.
fn note_at(file: &[u8], at: usize) -> Result<Record, Refusal>
    requires { at + mark_length ≤ length file.now }
    ensures { result ≡ record_of note_kind file.now at false }
{
    let body = at + NOTE_HEAD_LENGTH;
    if file.len() < body {
        return Err(Refusal {
            cause: Cause::CutShort,
            place: at,
        });
    }
    let end = body + usize::from(file[at + MARK_LENGTH]);
    whole(file, at, end, Record::Note(end))
}

// What stands at an offset; `plugged` says that a plug stands before it.
pub fn next_record(file: &[u8], at: usize, plugged: bool) -> Result<Record, Refusal>
    requires { at ≤ length file.now }
    ensures { result ≡ record_at file.now at plugged }
{
    if file.len() < at + MARK_LENGTH {
        return Err(Refusal {
            cause: Cause::CutShort,
            place: at,
        });
    }
    let mark = mark_at(file, at);
    match mark {
        BOX_MARK => {
            if plugged {
                return Err(Refusal {
                    cause: Cause::BoxAfterPlug,
                    place: at,
                });
            }
            whole(file, at, at + BOX_LENGTH, Record::Box(at + BOX_LENGTH))
        }
        PLUG_MARK => whole(file, at, at + PLUG_LENGTH, Record::Plug(at + PLUG_LENGTH)),
        END_MARK => {
            if at + MARK_LENGTH < file.len() {
                return Err(Refusal {
                    cause: Cause::ByteAfterEnd,
                    place: at + MARK_LENGTH,
                });
            }
            Ok(Record::End)
        }
        FIRST_NOTE_MARK..=LAST_NOTE_MARK => note_at(file, at),
        _ => Err(Refusal {
            cause: Cause::UnknownMark,
            place: at,
        }),
    }
}

// The number at an offset.
fn number_at(file: &[u8], at: usize) -> i32
    requires { at + 3 < length file.now }
    ensures { result ≡ number_at file.now at }
{
    i32::from_be_bytes([file[at], file[at + 1], file[at + 2], file[at + 3]])
}

// Puts as many numbers as a buffer has room for, from an offset of a file on, into the buffer.
pub fn put_numbers(file: &[u8], from: usize, numbers: &mut [i32])
    requires { from + 4 * length numbers.old ≤ length file.now }
    ensures { numbers.new ≡ numbers_at file.now from (length numbers.old) }
{
    for (k, number) in numbers.iter_mut().enumerate() {
        *number = number_at(file, from + NUMBER_LENGTH * k);
    }
}

// Writes a mark at an offset.
pub fn write_mark(mark: u16, file: &mut [u8], at: usize)
    requires { at + 1 < length file.old }
    ensures { file.new ≡ over file.old at (mark_bytes mark) }
{
    file[at..at + MARK_LENGTH].copy_from_slice(&mark.to_be_bytes());
}

// Writes a number at an offset.
fn write_number(number: i32, file: &mut [u8], at: usize)
    requires { at + 3 < length file.old }
    ensures { file.new ≡ over file.old at (number_bytes number) }
{
    file[at..at + NUMBER_LENGTH].copy_from_slice(&number.to_be_bytes());
}

// Writes a record at an offset: its mark, then its numbers.
fn write_record(mark: u16, numbers: &[i32], file: &mut [u8], at: usize)
    requires { at + mark_length + 4 * length numbers.now ≤ length file.old }
    ensures { file.new ≡ over file.old at (mark_bytes mark ++ flat_map number_bytes numbers.now) }
{
    write_mark(mark, file, at);
    for (k, number) in numbers.iter().enumerate() {
        write_number(*number, file, at + MARK_LENGTH + NUMBER_LENGTH * k);
    }
}

// Writes a box at an offset.
pub fn write_box(b: Box, file: &mut [u8], at: usize)
    requires { at + box_length ≤ length file.old }
    ensures { file.new ≡ over file.old at (box_record b) }
{
    write_record(BOX_MARK, &[b.west, b.south, b.east, b.north], file, at);
}

// Writes a plug at an offset.
pub fn write_plug(plug: Point, file: &mut [u8], at: usize)
    requires { at + plug_length ≤ length file.old }
    ensures { file.new ≡ over file.old at (plug_record plug) }
{
    write_record(PLUG_MARK, &[plug.east, plug.north], file, at);
}

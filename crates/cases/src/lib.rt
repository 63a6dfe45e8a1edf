// What the drivers share: a case's numbers from the input, and what is printed of a reply.
//
// On the input a count is four bytes, high byte first, and a number is the count that is its two's complement. Where an
// input ends early, or a read of it fails, what is missing of a number is 0, and bytes stay as they stood. A write that
// fails is the caller's to answer.
#![tactic(auto)]

ghost use Rattle.std.specs.Prelude.{◌≡◌, ◌≤◌, length, take};

use std::fmt::Display;
use std::io::{self, Read};

// ---- read

// The four bytes of the next number.
fn read_bytes(input: &mut impl Read) -> [u8; 4] {
    let mut bytes = [0u8; 4];
    let _ = input.read_exact(&mut bytes);
    bytes
}

// The next count.
pub fn read_count(input: &mut impl Read) -> u32 {
    u32::from_be_bytes(read_bytes(input))
}

// The next number.
pub fn read_number(input: &mut impl Read) -> i32 {
    i32::from_be_bytes(read_bytes(input))
}

// The next count, as the length of a part at the front of a list: no more than the list has. (No slice: a part of a
// list that is lent shared could not be written, and one of a list that is lent to be changed asks for more.)
pub fn read_front<T>(input: &mut impl Read, list: &[T]) -> usize
    ensures within { result ≤ length list.now }
    ensures front { result ≡ length (take result list.now) }
{
    (read_count(input) as usize).min(list.len())
}

// Reads a count and so many numbers over the front of a list.
pub fn read_over(input: &mut impl Read, list: &mut [i32]) {
    let count = read_front(input, list);
    for number in list[..count].iter_mut() {
        *number = read_number(input);
    }
}

// Reads a count and so many bytes over the front of some bytes.
pub fn read_bytes_over(input: &mut impl Read, bytes: &mut [u8]) {
    let count = read_front(input, bytes);
    let _ = input.read_exact(&mut bytes[..count]);
}

// ---- printed

// A space and a number.
pub fn print_number(output: &impl Print, number: impl Display + Drop) -> io::Result<()> {
    print!(output; " {number}")
}

// Prints every number of a list, a run of equal ones as `number*count`.
pub fn print_numbers(output: &impl Print, list: &[i32]) -> io::Result<()> {
    for run in list.chunk_by(|a, b| a == b) {
        print_number(output, run[0])?;
        let count = run.len();
        if 1 < count {
            print!(output; "*{count}")?;
        }
    }
    Ok(())
}

// Prints every byte as two digits of base sixteen.
pub fn print_bytes(output: &impl Print, bytes: &[u8]) -> io::Result<()> {
    for byte in bytes {
        print!(output; "{byte:02x}")?;
    }
    Ok(())
}

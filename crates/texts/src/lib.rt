// Text at the front of a lent buffer: bytes, numbers in base ten, and fields of a label and a number.
//
// No heap: each step writes at the front of what it is lent, returns how much it wrote, and leaves the rest as it was.
// Digits are written here, as std writes them to a formatter or to a buffer of its own, from which one copies.
#![tactic(auto)]

ghost use Rattle.std.specs.Prelude.{◌+◌, ◌<◌, ◌≤◌, ◌++◌, length};
ghost use Rattle.texts.specs.Decimals.{decimal};
ghost use Rattle.texts.specs.Text.{ascii, Wrote};

// The least number of three digits, and of five.
const THREE_DIGITS: usize = 100;

const FIVE_DIGITS: usize = 10000;

// The digit 0.
const ZERO: u8 = b'0';

// Writes bytes.
pub fn write_bytes(bytes: &[u8], out: &mut [u8]) -> usize
    requires { length bytes.now ≤ length out.old }
    ensures { Wrote bytes.now out.old result out.new }
{
    // By index: `copy_from_slice` makes the library for C need memmove.
    for i in 0..bytes.len() {
        out[i] = bytes[i];
    }
    bytes.len()
}

// Writes a number of one or two digits in base ten.
fn write_two(number: usize, out: &mut [u8]) -> usize
    requires { (number < 100) × (length (decimal number) ≤ length out.old) }
    ensures { Wrote (decimal number) out.old result out.new }
{
    if number < 10 {
        out[0] = ZERO + (number as u8);
        return 1;
    }
    out[0] = ZERO + ((number / 10) as u8);
    out[1] = ZERO + ((number % 10) as u8);
    2
}

// Writes a number in base ten, each digit by a call of itself.
fn write_digits(number: usize, out: &mut [u8]) -> usize
    requires { length (decimal number) ≤ length out.old }
    ensures { Wrote (decimal number) out.old result out.new }
{
    if number < 10 {
        out[0] = ZERO + (number as u8);
        return 1;
    }
    let count = write_digits(number / 10, out);
    out[count] = ZERO + ((number % 10) as u8);
    count + 1
}

// Writes a number in base ten; one of at most four digits, as those of plugs are, without a call for each digit.
pub fn write_decimal(number: usize, out: &mut [u8]) -> usize
    requires { length (decimal number) ≤ length out.old }
    ensures { Wrote (decimal number) out.old result out.new }
{
    if number < THREE_DIGITS {
        return write_two(number, out);
    }
    if FIVE_DIGITS <= number {
        return write_digits(number, out);
    }
    let tens = number / 10;
    let count = write_two(tens / 10, out);
    out[count] = ZERO + ((tens % 10) as u8);
    out[count + 1] = ZERO + ((number % 10) as u8);
    count + 2
}

// Writes a label, then a number in base ten.
fn write_field(label: &[u8], number: usize, out: &mut [u8]) -> usize
    requires { length label.now + length (decimal number) ≤ length out.old }
    ensures { Wrote (label.now ++ decimal number) out.old result out.new }
{
    let n = write_bytes(label, out);
    n + write_decimal(number, &mut out[n..])
}

// Writes a line of two fields, each a label and a number.
pub fn write_fields(first: &[u8], a: usize, second: &[u8], b: usize, out: &mut [u8]) -> usize
    requires { length first.now + length (decimal a) + length second.now + length (decimal b) + 1 ≤
        length out.old }
    ensures { Wrote
        (first.now ++ decimal a ++ second.now ++ decimal b ++ ascii "\n")
        out.old result out.new }
{
    let n = write_field(first, a, out);
    let m = n + write_field(second, b, &mut out[n..]);
    m + write_bytes(b"\n", &mut out[m..])
}

// As many numbers as there are, one after another. Each `put` answers the place after what it put.
ghost use Rattle.std.specs.Prelude.{◌≡◌, ◌+◌, ◌*◌, ◌/◌, ◌%◌, ◌^◌, ◌<◌, ◌≤◌, length, take};
ghost use Rattle.io.specs.Digits.{hex_digit_ascii};
ghost use Rattle.print_lines.specs.InnerText.{line_of, with_text};
ghost use Rattle.print_rows.specs.InnerEach.{next_number, numbers_text, next_index, indices_text, value_text, values_text};
ghost use Rattle.print_rows.specs.InnerFill.{fill_text};

use crate::signed;
use print_lines::text;

// A number, after a space.
fn put_next(line: &mut [u8], at: usize, number: usize) -> usize
    ensures { line_of line.new result ≡ with_text (line_of line.old at) (next_number number) }
{
    let to = text::put_byte(line, at, b' ');
    text::put_number(line, to, number)
}

// The first n bytes of a slice, as numbers.
pub fn put_bytes(line: &mut [u8], at: usize, numbers: &[u8], n: usize) -> usize
    ensures { line_of line.new result
        ≡ with_text (line_of line.old at) (numbers_text (take n numbers.now)) }
{
    let first = &numbers[..n.min(numbers.len())];
    let mut to = at;
    for number in first {
        to = put_next(line, to, *number as usize);
    }
    to
}

// The first n numbers of a slice.
pub fn put_numbers(line: &mut [u8], at: usize, numbers: &[u32], n: usize) -> usize
    ensures { line_of line.new result
        ≡ with_text (line_of line.old at) (numbers_text (take n numbers.now)) }
{
    let first = &numbers[..n.min(numbers.len())];
    let mut to = at;
    for number in first {
        to = put_next(line, to, *number as usize);
    }
    to
}

// An index, after a space.
fn put_index(line: &mut [u8], at: usize, index: i8) -> usize
    ensures { line_of line.new result ≡ with_text (line_of line.old at) (next_index index) }
{
    let to = text::put_byte(line, at, b' ');
    signed::put_signed(line, to, index as i16)
}

// The indices of a slice, with their signs.
pub fn put_indices(line: &mut [u8], at: usize, indices: &[i8]) -> usize
    ensures { line_of line.new result ≡ with_text (line_of line.old at) (indices_text indices.now) }
{
    let mut to = at;
    for index in indices {
        to = put_index(line, to, *index);
    }
    to
}

// The place and the value of a line that is not 0, in at most 12 bytes.
fn put_value(line: &mut [u8], at: usize, place: usize, value: i16) -> usize
    requires { place < 1024 }
    ensures { (line_of line.new result ≡ with_text (line_of line.old at) (value_text place value))
        × (result ≤ at + 12) }
{
    if signed::magnitude(value) == 0 {
        return at;
    }
    let to = text::put_form(line, at, b" #:", &[place]);
    signed::put_signed(line, to, value)
}

// The place and the value of every line that is not 0, in at most 12 bytes a line.
pub fn put_values(line: &mut [u8], at: usize, lines: &[i16]) -> usize
    requires { length lines.now ≤ 1024 }
    ensures { (line_of line.new result ≡ with_text (line_of line.old at) (values_text lines.now))
        × (result ≤ at + 12 * length lines.now) }
{
    let mut to = at;
    for (place, value) in lines.iter().enumerate() {
        to = put_value(line, to, place, *value);
    }
    to
}

// The bit of weight 2^k, as a digit.
fn bit_of(value: u32, k: usize) -> u8
    requires { k < 32 }
    ensures { result ≡ hex_digit_ascii (value / 2 ^ k % 2) }
{
    48 + ((value >> k) % 2) as u8
}

// The last count bits of a number, or a dash where there are none.
pub fn put_fill(line: &mut [u8], at: usize, value: u32, count: usize) -> usize
    ensures { line_of line.new result ≡ with_text (line_of line.old at) (fill_text value count) }
{
    if count == 0 {
        return text::put_byte(line, at, b'-');
    }
    let mut to = at;
    for k in (0..count.min(32)).rev() {
        to = text::put_byte(line, to, bit_of(value, k));
    }
    to
}

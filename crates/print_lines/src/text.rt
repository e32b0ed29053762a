// A line of text: words and numbers are put into a lent line, which is then written out at once.
// Each `put` answers the place after what it put. What does not fit is not put, so a line is written only where it is known to have room.
ghost use Rattle.std.specs.Prelude.{◌≡◌, ◌<◌, length, drop};
ghost use Rattle.print_lines.specs.InnerText.{line_of, with_byte, with_text, number_text, marked_text, form_text};

// A byte.
pub fn put_byte(line: &mut [u8], at: usize, byte: u8) -> usize
    ensures { line_of line.new result ≡ with_byte (line_of line.old at) byte }
{
    if line.len() <= at {
        return at;
    }
    line[at] = byte;
    at + 1
}

// Words.
pub fn put(line: &mut [u8], at: usize, words: &[u8]) -> usize
    ensures { line_of line.new result ≡ with_text (line_of line.old at) words.now }
{
    let mut to = at;
    for byte in words {
        to = put_byte(line, to, *byte);
    }
    to
}

// A number in decimal; each of the last 256 stands for the letter of its last 8 bits.
pub fn put_number(line: &mut [u8], at: usize, n: usize) -> usize
    ensures { line_of line.new result ≡ with_text (line_of line.old at) (number_text n) }
{
    if 18446744073709551360 <= n {
        return put_byte(line, at, (n % 256) as u8);
    }
    let mut digits = [0u8; 20];
    let count = io::decimal(n as u64, &mut digits);
    put(line, at, &digits[..count])
}

// A byte of a form: a mark is the number at this place, where there is one, and any other byte is itself.
fn put_marked(line: &mut [u8], at: usize, byte: u8, numbers: &[usize], place: usize) -> usize
    ensures { line_of line.new result
        ≡ with_text (line_of line.old at) (marked_text byte (drop place numbers.now)) }
{
    if byte != b'#' {
        return put_byte(line, at, byte);
    }
    if numbers.len() <= place {
        return at;
    }
    put_number(line, at, numbers[place])
}

// A form, with the numbers in place of its marks.
pub fn put_form(line: &mut [u8], at: usize, form: &[u8], numbers: &[usize]) -> usize
    ensures { line_of line.new result
        ≡ with_text (line_of line.old at) (form_text form.now numbers.now) }
{
    let mut to = at;
    let mut place = 0;
    for byte in form {
        to = put_marked(line, to, *byte, numbers, place);
        if *byte == b'#' {
            place += 1;
        }
    }
    to
}

// The line is ended and written to standard output or standard error.
pub fn write_line(to: &impl Print, line: &mut [u8], at: usize) -> std::io::Result<()>
    requires { at < length line.old }
{
    line[at] = b'\n';
    to.write_all(&line[..at + 1])
}

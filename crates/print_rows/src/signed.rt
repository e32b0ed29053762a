// A number with its sign.
ghost use Rattle.std.specs.Prelude.{◌≡◌, nat_abs};
ghost use Rattle.print_lines.specs.InnerText.{line_of, with_text};
ghost use Rattle.print_rows.specs.InnerSigned.{sign_text, signed_text};

use print_lines::text;

// How far a number is from 0.
pub fn magnitude(n: i16) -> usize
    ensures { result ≡ nat_abs n }
{
    n.unsigned_abs() as usize
}

// The sign of a number below 0.
fn put_sign(line: &mut [u8], at: usize, n: i16) -> usize
    ensures { line_of line.new result ≡ with_text (line_of line.old at) (sign_text n) }
{
    let below = n < 0;
    if below {
        return text::put_byte(line, at, b'-');
    }
    at
}

// A number with its sign.
pub fn put_signed(line: &mut [u8], at: usize, n: i16) -> usize
    ensures { line_of line.new result ≡ with_text (line_of line.old at) (signed_text n) }
{
    let to = put_sign(line, at, n);
    text::put_number(line, to, magnitude(n))
}

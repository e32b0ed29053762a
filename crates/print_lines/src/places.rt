// The place of a refusal, which stands after its number where it is told.
ghost use Rattle.std.specs.Prelude.{◌≡◌};
ghost use Rattle.print_lines.specs.InnerText.{line_of, with_text};
ghost use Rattle.print_lines.specs.InnerPlaces.{judged_bit, place_text};

use crate::text;

// Whether a refusal judged a bit of a payload or of a frame.
fn judged_bit(number: usize) -> bool
    ensures { result ≡ judged_bit number }
{
    if number < 10 {
        return false;
    }
    if number <= 35 {
        return true;
    }
    number == 53
}

// The place of a refusal with this number, where it is told and judged a bit.
pub fn put_place(line: &mut [u8], at: usize, told: bool, number: usize, place: usize) -> usize
    ensures { line_of line.new result ≡ with_text (line_of line.old at) (place_text told number place) }
{
    if !told {
        return at;
    }
    if !judged_bit(number) {
        return at;
    }
    text::put_form(line, at, b" at #", &[place])
}

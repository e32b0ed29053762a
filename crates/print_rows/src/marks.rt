// What stands at a mark of a form: a number below 2^64 - 256, or so much more than a letter.
ghost use Rattle.std.specs.Prelude.{◌≡◌};
ghost use Rattle.bits.specs.Bytes.{flag_byte};
ghost use Rattle.print_rows.specs.InnerMarks.{mode_mark, direction_mark};

// A dash, where there is none.
pub const NONE: usize = 18446744073709551360 + 45;

// The letter of coding across time.
pub const TIME: usize = 18446744073709551360 + 116;

// The letter of coding across frequency.
pub const FREQUENCY: usize = 18446744073709551360 + 102;

// A flag, 1 or 0.
pub fn flag(on: bool) -> usize
    ensures { result ≡ flag_byte on }
{
    if on {
        return 1;
    }
    0
}

// A mode, where there is one.
pub fn mode(there: bool, mode: u32) -> usize
    ensures { result ≡ mode_mark there mode }
{
    if there {
        return mode as usize;
    }
    NONE
}

// How a kind was coded: across frequency, across time, or not sent.
pub fn direction(sent: bool, time: u32) -> usize
    ensures { result ≡ direction_mark sent time }
{
    if !sent {
        return NONE;
    }
    if time == 1 {
        return TIME;
    }
    FREQUENCY
}

// What every call judges before anything is read.
ghost use Rattle.std.specs.Prelude.{◌≡◌, ◌<◌};
ghost use Rattle.bits.specs.Calls.{first_number, call_tests, returned};
ghost use Rattle.bits.specs.Payload.{in_buffer};
ghost use Rattle.bits.specs.Sampling.{known_index};

// What is judged of a range and of room for an answer: a refusal's number, or 0. A number, as C is handed it.
pub fn call_refusal(size: usize, start: usize, end: usize, need: usize, room: usize) -> u32
    ensures { result ≡ first_number (call_tests (in_buffer start end size) need room) }
{
    if end < start {
        return 1;
    }
    if size < end {
        return 1;
    }
    if room < need {
        return 2;
    }
    0
}

// Whether a sampling index is one that streams have.
pub fn is_known_index(index: usize) -> bool
    ensures { result ≡ known_index index }
{
    if index == 3 {
        return true;
    }
    if index == 4 {
        return true;
    }
    if index == 6 {
        return true;
    }
    index == 7
}

// What comes back to a program in C: a number, and the place of a refusal above it.
pub fn returned(number: u8, place: usize) -> u32
    requires { place < 16777216 }
    ensures { result ≡ returned number place }
{
    number as u32 + 256 * (place as u32)
}

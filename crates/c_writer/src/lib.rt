// A stereo payload, written from contents and a state that are bytes.
#![tactic(auto)]

ghost use Rattle.std.specs.Prelude.{◌≡◌};
ghost use Rattle.bits.specs.Calls.{first_number};
ghost use Rattle.c_writer.specs.WriteStereo.{write_tests, WriteStereoPromise};

use bits::bytes;
use c_layout::{answers, states};
use stereo_writer::writing;

// What is judged before contents are written: a refusal's number, or 0, as C is handed it.
fn write_refusal(state: &[u8], size: usize, room: usize) -> u32
    ensures { result ≡ first_number (write_tests state.now size room) }
{
    if room < 4 {
        return 2;
    }
    if !states::is_sound_at(state) {
        return 4;
    }
    if size < 582 {
        return 40;
    }
    0
}

// Contents are written as a stereo payload to the front of a lent output: a lent state is moved on, and a lent answer gets the bits.
pub fn oarcradler_write_stereo(
    state: &mut [u8],
    contents: &[u8],
    out: &mut [u8],
    answer: &mut [u8],
) -> u32
    ensures { WriteStereoPromise
        (record {
          state = state.old;
          contents = contents.now;
          out = out.old;
          answer = answer.old;
        })
        result state.new out.new answer.new }
{
    let number = write_refusal(state, contents.len(), answer.len());
    if number != 0 {
        return number;
    }
    let before = states::state_at(state);
    let wanted = answers::contents_at(contents);
    let w = writing::write_sound(out, before, &wanted);
    if w.number != 0 {
        return w.number as u32;
    }
    states::put_state(state, w.state);
    let bits = bytes::word_of(w.bits);
    bytes::put(answer, 0, &bits);
    0
}

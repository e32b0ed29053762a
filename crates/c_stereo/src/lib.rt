// The stereo state and a stereo payload, answered in bytes.
#![tactic(auto)]

ghost use Rattle.std.specs.Prelude.{◌≡◌, ◌≤◌, ◌<◌, length};
ghost use Rattle.c_stereo.specs.StateCalls.{FreshStatePromise, ReportMissingPromise};
ghost use Rattle.bits.specs.Payload.{in_buffer};
ghost use Rattle.bits.specs.Calls.{first_number, returned, answered};
ghost use Rattle.c_layout.specs.ContentsBytes.{answer_bytes};
ghost use Rattle.c_stereo.specs.ReadStereo.{stereo_tests, moved_on, ReadStereoPromise};

use bits::calls::{call_refusal, returned};
use c_layout::{answers, states};
use stereo_reader::Reading;

// The state before any payload is written to the front of a lent state.
pub fn oarcradler_fresh_state(state: &mut [u8]) -> u32
    ensures { FreshStatePromise state.old result state.new }
{
    if state.len() < 146 {
        return 2;
    }
    states::put_state(state, stereo::states::fresh());
    0
}

// A payload is reported missing: the mark of a lent state is set out of step.
pub fn oarcradler_report_missing(state: &mut [u8]) -> u32
    ensures { ReportMissingPromise state.old result state.new }
{
    if !states::is_sound_at(state) {
        return 4;
    }
    state[5] = 0;
    0
}

// What is judged before any bit of a stereo payload: a refusal's number, or 0, as C is handed it.
fn stereo_refusal(state: &[u8], size: usize, start: usize, end: usize, room: usize) -> u32
    ensures { result ≡ first_number (stereo_tests (in_buffer start end size) room state.now) }
{
    let number = call_refusal(size, start, end, 582, room);
    if number != 0 {
        return number;
    }
    if !states::is_sound_at(state) {
        return 4;
    }
    0
}

// What comes back of a reading: where it is accepted, the lent state is the next one and the lent answer gets its bits and contents; else
// the mark of the state is out of step.
fn told(state: &mut [u8], answer: &mut [u8], r: &Reading) -> u32
    requires { (146 ≤ length state.old) × (582 ≤ length answer.old) × (r.now.place < 16777216) }
    ensures { (result ≡ returned r.now.number r.now.place) × ((state.new ≡ moved_on state.old r.now)
        × (answer.new ≡ answered r.now.number (answer_bytes r.now.bits r.now.contents) answer.old)) }
{
    if r.number != 0 {
        state[5] = 0;
        return returned(r.number, r.place);
    }
    states::put_state(state, r.state);
    answers::put_answer(answer, r.bits, &r.contents);
    returned(r.number, r.place)
}

// The stereo payload in the bytes from start to end of a buffer: a lent state is moved on, and a lent answer gets its bits and contents.
pub fn oarcradler_read_stereo(
    state: &mut [u8],
    buf: &[u8],
    start: usize,
    end: usize,
    answer: &mut [u8],
) -> u32
    ensures { ReadStereoPromise
        (record {
          state = state.old;
          payload = record { bytes = buf.now; start = start; end = end };
          answer = answer.old;
        })
        result state.new answer.new }
{
    let number = stereo_refusal(state, buf.len(), start, end, answer.len());
    if number != 0 {
        return number;
    }
    let before = states::state_at(state);
    let r = stereo_reader::read_bytes(before, &buf[start..end]);
    told(state, answer, &r)
}

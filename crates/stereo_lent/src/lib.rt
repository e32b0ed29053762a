// The stereo reader over a state that is lent: the caller keeps one state, and each call leaves the next one in it.
#![tactic(auto)]

ghost use Rattle.std.specs.Prelude.{◌≡◌};
ghost use Rattle.bits.specs.Payload.{range_in};
ghost use Rattle.stereo_reader.specs.Reading.{read_from};
ghost use Rattle.stereo_lent.specs.Lent.{apart_of, LentReadPromise, LentMissingPromise};

use stereo::{Contents, State};

// The answer to a payload: the refusal and the bit at which it was refused, or 0, how many bits it used, and its contents. A
// record with a number, as the promise's `apart_of` is of it.
#[derive(Clone, Copy)]
pub struct Answer {
    pub number: u8,
    pub place: usize,
    pub bits: usize,
    pub contents: Contents,
}

// The next state, and the answer beside it.
#[derive(Clone, Copy)]
struct Apart {
    state: State,
    answer: Answer,
}

// A payload read from a state by value, the next state apart from the answer.
fn read_apart(state: State, bytes: &[u8], start: usize, end: usize) -> Apart
    ensures { result ≡ apart_of (read_from state (range_in bytes.now start end)) }
{
    let read = stereo_reader::read(state, bytes, start, end);
    let answer = Answer {
        number: read.number,
        place: read.place,
        bits: read.bits,
        contents: read.contents,
    };
    Apart {
        state: read.state,
        answer,
    }
}

// A payload in a range of a buffer: what it holds and how many bits it used; the lent state is then the next one.
pub fn read(state: &mut State, bytes: &[u8], start: usize, end: usize) -> Answer
    ensures { LentReadPromise
        state.old (record { bytes = bytes.now; start = start; end = end })
        result state.new }
{
    let apart = read_apart(*state, bytes, start, end);
    *state = apart.state;
    apart.answer
}

// A payload reported missing: the refusal, or 0, as `LentMissingPromise` has it; the lent state is then the next one.
pub fn missing(state: &mut State) -> u8
    ensures { LentMissingPromise state.old result state.new }
{
    let report = stereo_reader::missing(*state);
    *state = report.state;
    report.number
}

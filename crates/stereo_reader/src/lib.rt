// The stereo reader: a payload in step or out of step, and a payload reported missing.
#![tactic(auto)]

ghost use Rattle.std.specs.Prelude.{◌≡◌, ◌||◌};
ghost use Rattle.stereo.specs.State.{lost};
ghost use Rattle.stereo.specs.Restart.{restart};
ghost use Rattle.stereo_reader.specs.Reading.{from, refusal, taken, read_bytes, ReadPromise, MissingPromise};

use bits::Bits;
use stereo::{Contents, State, payloads, states, turns};

// The answer to a payload: the refusal and the bit at which it was refused, or 0, how many bits it used, its contents, and the next state.
// A record with a number, as the promise's `read_from` and the demands are of it; so is a report.
#[derive(Clone, Copy)]
pub struct Reading {
    pub number: u8,
    pub place: usize,
    pub bits: usize,
    pub contents: Contents,
    pub state: State,
}

// The answer to a report: the refusal, or 0, and the next state.
#[derive(Clone, Copy)]
pub struct Report {
    pub number: u8,
    pub state: State,
}

// A refusal before any bit: every other number is 0.
fn refused(number: u8, state: State) -> Reading
    ensures { result ≡ refusal number 0 state }
{
    let contents = payloads::no_contents();
    Reading {
        number,
        place: 0,
        bits: 0,
        contents,
        state,
    }
}

// A refusal at a bit, which sets the mark.
fn refused_at(number: u8, place: usize, state: State) -> Reading
    ensures { result ≡ refusal number place (lost state) }
{
    let contents = payloads::no_contents();
    Reading {
        number,
        place,
        bits: 0,
        contents,
        state: states::lost(state),
    }
}

// The state that a payload is read from: out of step the fresh one.
pub fn read_from(state: State) -> State
    ensures { result ≡ from state }
{
    if state.instep {
        return state;
    }
    states::fresh()
}

// Whether contents are accepted: in step, or where they are a restart.
pub fn is_accepted(state: State, contents: &Contents) -> bool
    ensures { result ≡ state.instep || restart contents.now }
{
    state.instep || turns::is_restart(contents)
}

// Contents that were read: accepted, or 35.
#[tactic(auto, unfolding(crate::specs::Reading::taken))]
fn taken(state: State, contents: &Contents, bits: usize) -> Reading
    ensures { result ≡ taken state contents.now bits }
{
    if !is_accepted(state, contents) {
        return refused_at(35, bits, state);
    }
    let before = read_from(state);
    Reading {
        number: 0,
        place: 0,
        bits,
        contents: *contents,
        state: turns::carried(before, contents),
    }
}

// A payload that fills a slice: what it holds, how many bits it used, and the next state. No payload goes further than 1,024 bytes, so that
// one byte more is enough to tell.
pub fn read_bytes(state: State, s: &[u8]) -> Reading
    ensures { result ≡ read_bytes state s.now }
{
    let lookups = tables::stereo_lookups();
    let end = 8 * s.len().min(1025);
    let payload = Bits { bytes: s, end };
    let before = read_from(state);
    let mut contents = payloads::no_contents();
    match payloads::read_payload(&payload, before, &lookups, &mut contents) {
        Ok(bits) => {
            if 7 < payload.left(bits) {
                return refused_at(12, bits, state);
            }
            taken(state, &contents, bits)
        }
        Err(refusal) => refused_at(refusal.number, refusal.place, state),
    }
}

// A payload in a range of a buffer: what it holds, how many bits it used, and the next state.
#[tactic(auto, unfolding(crate::specs::Reading::read_from))]
pub fn read(state: State, bytes: &[u8], start: usize, end: usize) -> Reading
    ensures { ReadPromise state (record { bytes = bytes.now; start = start; end = end }) result }
{
    if end < start || bytes.len() < end {
        return refused(1, state);
    }
    if !states::is_sound(state) {
        return refused(4, state);
    }
    read_bytes(state, &bytes[start..end])
}

// A payload reported missing.
#[tactic(auto, unfolding(crate::specs::Reading::missing))]
pub fn missing(state: State) -> Report
    ensures { MissingPromise state result }
{
    if !states::is_sound(state) {
        return Report { number: 4, state };
    }
    Report {
        number: 0,
        state: states::lost(state),
    }
}

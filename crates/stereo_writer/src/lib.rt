// The stereo writer: contents and a state in, a payload's bytes and the next state out.
#![tactic(auto)]

use stereo::State;

mod extensions;
mod fields;
mod payloads;
mod rows;
mod same;
mod scratch;
pub mod writing;

// The answer to a writing: the refusal, or 0, how many bits were written, and the next state. A record with a number, as the promise's
// `writing` is of it.
#[derive(Clone, Copy)]
pub struct Written {
    pub number: u8,
    pub bits: usize,
    pub state: State,
}

// The stereo state and a payload's contents as bytes, for a program in another language.
#![tactic(auto)]

pub mod answers;
pub mod indices;
pub mod states;

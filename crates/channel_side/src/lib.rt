// What stands before the spectrum of a channel stream: window information, sections, scale factors and pulses.
#![tactic(auto)]

pub mod factors;
pub mod pulses;
pub mod sections;
pub mod window;

// The shape of a channel stream: its bands, and its groups of windows.
#![tactic(auto)]

pub mod bands;
pub mod grouping;

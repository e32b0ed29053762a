// The lines of a channel stream, in window order.
#![tactic(auto)]

pub mod lines;

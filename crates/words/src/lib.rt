// The words of code tables, by lookup, and the escape of book 11.
#![tactic(auto)]

pub mod escape;
pub mod lookup;

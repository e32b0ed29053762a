// ADTS files on standard input: a window over the file that has the next frame whole, and what is listed of a frame.
#![tactic(auto)]

pub mod rows;
pub mod window;

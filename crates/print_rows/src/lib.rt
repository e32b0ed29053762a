// The rows that a dump prints under a payload's line: what the payload holds, and the stereo state after it. A row is built at the front of
// a lent line, which is proved to hold its text, and is then written; at a fault of the output no row after it is written.
#![tactic(auto)]

pub mod channels;
pub mod contents;
mod envelopes;
mod lists;
mod marks;
pub mod records;
mod signed;

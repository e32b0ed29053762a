// The words of the spectral books: values by kind of book, with their sign bits and escapes.
#![tactic(auto)]

mod bands;
mod entries;
pub mod pairs;
pub mod quads;
mod signs;

// Difference coding: the indices of one kind, from words and from the record that an earlier envelope left.
#![tactic(auto)]

pub mod indices;
pub mod kinds;
pub mod records;
pub mod rows;
pub mod steps;

// Level and coherence, and the two phases.
#[derive(Clone, Copy)]
pub enum Kind {
    Iid,
    Icc,
    Ipd,
    Opd,
}

// A kind's record: the mode that it was coded in, 7 for none, and its indices.
#[derive(Clone, Copy, PartialEq, Eq)]
pub struct Record {
    pub mode: u32,
    pub indices: [i8; 34],
}

// One kind in one envelope: its time flag, and its indices.
#[derive(Clone, Copy, PartialEq, Eq)]
pub struct Row {
    pub time: u32,
    pub indices: [i8; 34],
}

// The stereo state, a payload's fields and contents, and what is carried on.
#![tactic(auto)]

use stereo_indices::{Record, Row};

pub mod extensions;
pub mod frames;
pub mod headers;
pub mod payloads;
pub mod states;
pub mod turns;

// The three enable flags, and the last IID and ICC modes sent, 7 for none.
#[derive(Clone, Copy, PartialEq, Eq)]
pub struct Setup {
    pub iid: bool,
    pub icc: bool,
    pub ext: bool,
    pub iidmode: u32,
    pub iccmode: u32,
}

// What is carried from payload to payload: the set-up, a record for each kind, and the in-step mark.
#[derive(Clone, Copy, PartialEq, Eq)]
pub struct State {
    pub setup: Setup,
    pub iid: Record,
    pub icc: Record,
    pub ipd: Record,
    pub opd: Record,
    pub instep: bool,
}

// An enable bit and the mode after it, 0 where it is not sent.
#[derive(Clone, Copy, PartialEq, Eq)]
pub struct Switch {
    pub on: u32,
    pub mode: u32,
}

// The header's fields, 0 where they are not sent.
#[derive(Clone, Copy, PartialEq, Eq)]
pub struct Header {
    pub there: u32,
    pub iid: u32,
    pub iidmode: u32,
    pub icc: u32,
    pub iccmode: u32,
    pub ext: u32,
}

// The frame class, the number of envelopes, and their borders, 0 where there are none.
#[derive(Clone, Copy, PartialEq, Eq)]
pub struct Frame {
    pub class: u32,
    pub envelopes: usize,
    pub borders: [u32; 4],
}

// The phases of one envelope.
#[derive(Clone, Copy, PartialEq, Eq)]
pub struct Phases {
    pub ipd: Row,
    pub opd: Row,
}

// The records of the two phases.
#[derive(Clone, Copy, PartialEq, Eq)]
pub struct PhaseRecords {
    pub ipd: Record,
    pub opd: Record,
}

// The extension's v0: enable_ipdopd, and the phases of four envelopes, zeros where there are none.
#[derive(Clone, Copy, PartialEq, Eq)]
pub struct Body {
    pub phase: u32,
    pub phases: [Phases; 4],
}

// What fills the announced part: v0, and how many fill bits, with their number.
#[derive(Clone, Copy, PartialEq, Eq)]
pub struct Part {
    pub body: Body,
    pub count: usize,
    pub value: u32,
}

// Whether there is an extension, its size and esc_count, and what is in it, 0 where nothing is sent.
#[derive(Clone, Copy, PartialEq, Eq)]
pub struct Extension {
    pub there: u32,
    pub size: u32,
    pub esc: u32,
    pub part: Part,
}

// A payload's contents: of each of four envelopes a row of each kind, zeros where there are none.
#[derive(Clone, Copy, PartialEq, Eq)]
pub struct Contents {
    pub header: Header,
    pub frame: Frame,
    pub iid: [Row; 4],
    pub icc: [Row; 4],
    pub extension: Extension,
}

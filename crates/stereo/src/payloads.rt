// A payload's contents, as they are read from a state.
ghost use Rattle.std.specs.Prelude.{◌≡◌, ◌≤◌};
ghost use Rattle.bits.specs.InnerAnswers.{ended_answer, reads};
ghost use Rattle.stereo_indices.specs.Rows.{rows};
ghost use Rattle.stereo_indices.specs.declared.Kind.TheVariants.{Iid, Icc};
ghost use Rattle.stereo.specs.Extension.{extension};
ghost use Rattle.stereo.specs.Payload.{no_contents, envelopes, payload};

use crate::{Contents, Extension, PhaseRecords, Setup, State, extensions, frames, headers};
use bits::{Bits, Ended};
use stereo_indices::{Kind, Row, rows};
use tables::StereoLookups;

// No contents.
#[tactic(auto, unfolding(crate::specs::Payload::no_contents))]
pub fn no_contents() -> Contents
    ensures { result ≡ no_contents }
{
    let header = headers::no_header();
    let frame = frames::no_frame();
    let rows = rows::no_rows();
    let extension = extensions::no_extension();
    Contents {
        header,
        frame,
        iid: rows,
        icc: rows,
        extension,
    }
}

// The phase records of a state.
pub fn phase_records(state: State) -> PhaseRecords
    ensures { result ≡ record { ipd = state.ipd; opd = state.opd } }
{
    PhaseRecords {
        ipd: state.ipd,
        opd: state.opd,
    }
}

// The IID rows of n envelopes.
fn read_levels(
    s: &Bits,
    at: usize,
    state: State,
    setup: Setup,
    n: usize,
    lookups: &StereoLookups,
    levels: &mut [Row; 4],
) -> Ended
    requires { n ≤ 4 }
    ensures { ended_answer result levels.new ≡ reads (rows Iid setup.iid setup.iidmode state.iid n) s.now at }
{
    rows::read_kind(
        s,
        at,
        Kind::Iid,
        setup.iid,
        setup.iidmode,
        state.iid,
        n,
        lookups,
        levels,
    )
}

// The ICC rows of n envelopes.
fn read_coherences(
    s: &Bits,
    at: usize,
    state: State,
    setup: Setup,
    n: usize,
    lookups: &StereoLookups,
    coherences: &mut [Row; 4],
) -> Ended
    requires { n ≤ 4 }
    ensures { ended_answer result coherences.new ≡ reads (rows Icc setup.icc setup.iccmode state.icc n) s.now at }
{
    rows::read_kind(
        s,
        at,
        Kind::Icc,
        setup.icc,
        setup.iccmode,
        state.icc,
        n,
        lookups,
        coherences,
    )
}

// The extension of a payload of n envelopes.
fn read_rest(
    s: &Bits,
    at: usize,
    state: State,
    setup: Setup,
    n: usize,
    lookups: &StereoLookups,
    rest: &mut Extension,
) -> Ended
    requires { n ≤ 4 }
    ensures { ended_answer result rest.new ≡ reads (extension setup.ext setup.iidmode state.ipd state.opd n) s.now at }
{
    let records = phase_records(state);
    extensions::read_extension(s, at, setup.ext, setup.iidmode, records, n, lookups, rest)
}

// What the envelopes of a frame hold, put beside it.
#[tactic(auto, unfolding(crate::specs::Payload::envelopes))]
fn read_envelopes(
    s: &Bits,
    at: usize,
    state: State,
    setup: Setup,
    lookups: &StereoLookups,
    contents: &mut Contents,
) -> Ended
    requires { contents.old.frame.envelopes ≤ 4 }
    ensures { ended_answer result contents.new
        ≡ reads (envelopes state contents.old.header setup contents.old.frame) s.now at }
{
    let n = contents.frame.envelopes;
    let after_iid = read_levels(s, at, state, setup, n, lookups, &mut contents.iid)?;
    let after_icc = read_coherences(s, after_iid, state, setup, n, lookups, &mut contents.icc)?;
    read_rest(
        s,
        after_icc,
        state,
        setup,
        n,
        lookups,
        &mut contents.extension,
    )
}

// A payload's contents, from its first bit: they are put where they are lent, part by part.
#[tactic(auto, unfolding(crate::specs::Payload::payload))]
pub fn read_payload(
    s: &Bits,
    state: State,
    lookups: &StereoLookups,
    contents: &mut Contents,
) -> Ended
    ensures { ended_answer result contents.new ≡ reads (payload state) s.now 0 }
{
    let (header, after_header) = headers::read_header(s, 0)?;
    contents.header = header;
    let (frame, after_frame) = frames::read_frame(s, after_header)?;
    contents.frame = frame;
    let setup = headers::setup_after(state.setup, header);
    read_envelopes(s, after_frame, state, setup, lookups, contents)
}

// The extension: phases inside an announced part.
ghost use Rattle.std.specs.Prelude.{◌≡◌, ◌≤◌, eqb, replicate};
ghost use Rattle.bits.specs.Reader.{pick};
ghost use Rattle.bits.specs.Bits.{bits_from};
ghost use Rattle.bits.specs.InnerAnswers.{answer_of, ended_answer, reads};
ghost use Rattle.stereo_indices.specs.Record.{record_of};
ghost use Rattle.stereo.specs.Extension.{no_phases, no_body, no_part, no_extension, phases_in, phases_of, phases, has_mode, phase_flag, v0};
ghost use Rattle.stereo.specs.Extension.{part, announced, esc_count, extension_sent, extension};

use crate::{Body, Extension, Part, PhaseRecords, Phases};
use bits::fields::renumbered;
use bits::{Answer, Bits, Ended, bits_at, refused};
use stereo_indices::{Kind, Record, rows};
use tables::StereoLookups;

// No phases of an envelope.
#[tactic(auto, unfolding(crate::specs::Extension::no_phases))]
pub fn no_phases() -> Phases
    ensures { result ≡ no_phases }
{
    let row = rows::no_row();
    Phases { ipd: row, opd: row }
}

// No phases of four envelopes.
fn none_of_four() -> [Phases; 4]
    ensures { result ≡ replicate 4 no_phases }
{
    let phases = no_phases();
    [phases; 4]
}

// The phases of one envelope, after two records.
#[tactic(auto, unfolding(crate::specs::Extension::phases_in))]
fn read_phases(
    s: &Bits,
    at: usize,
    mode: u32,
    records: PhaseRecords,
    lookups: &StereoLookups,
) -> Answer<Phases>
    ensures { answer_of result ≡ reads (phases_in mode records.ipd records.opd) s.now at }
{
    let (ipd, after_ipd) = rows::read_row(s, at, Kind::Ipd, mode, records.ipd, lookups)?;
    let (opd, next) = rows::read_row(s, after_ipd, Kind::Opd, mode, records.opd, lookups)?;
    Ok((Phases { ipd, opd }, next))
}

// The records that the phases of an envelope leave.
fn left_by(mode: u32, phases: Phases) -> PhaseRecords
    ensures { result ≡ record { ipd = record_of mode phases.ipd.indices; opd = record_of mode phases.opd.indices } }
{
    let indices = phases.ipd.indices;
    let ipd = Record { mode, indices };
    let indices = phases.opd.indices;
    let opd = Record { mode, indices };
    PhaseRecords { ipd, opd }
}

// The phases of n envelopes, each after those before it.
fn read_phases_of(
    s: &Bits,
    at: usize,
    mode: u32,
    records: PhaseRecords,
    n: usize,
    lookups: &StereoLookups,
) -> Answer<[Phases; 4]>
    requires { n ≤ 4 }
    ensures { answer_of result ≡ reads (phases_of mode records.ipd records.opd n) s.now at }
{
    let mut phases = none_of_four();
    let mut last = records;
    let mut place = at;
    for k in 0..n {
        let (here, next) = read_phases(s, place, mode, last, lookups)?;
        last = left_by(mode, here);
        phases[k] = here;
        place = next;
    }
    Ok((phases, place))
}

// The phases, where enable_ipdopd is 1.
#[tactic(auto, unfolding(crate::specs::Extension::phases))]
fn read_all_phases(
    s: &Bits,
    at: usize,
    on: u32,
    mode: u32,
    records: PhaseRecords,
    n: usize,
    lookups: &StereoLookups,
) -> Answer<[Phases; 4]>
    requires { n ≤ 4 }
    ensures { answer_of result ≡ reads (phases on mode records.ipd records.opd n) s.now at }
{
    if on != 1 {
        return Ok((none_of_four(), at));
    }
    read_phases_of(s, at, mode, records, n, lookups)
}

// Whether phases may come: where there are any, an IID mode was sent.
fn has_mode(mode: u32, on: u32) -> bool
    ensures { result ≡ has_mode mode on }
{
    on == 0 || mode != 7
}

// The id of v0 and enable_ipdopd.
#[tactic(auto, unfolding(crate::specs::Extension::phase_flag))]
fn read_phase_flag(s: &Bits, at: usize, mode: u32) -> Answer<u32>
    ensures { answer_of result ≡ reads (phase_flag mode) s.now at }
{
    let (id, after_id) = s.field(at, 2)?;
    if id != 0 {
        return refused(13, at);
    }
    let (on, next) = s.field(after_id, 1)?;
    if !has_mode(mode, on) {
        return refused(34, after_id);
    }
    Ok((on, next))
}

// No v0.
#[tactic(auto, unfolding(crate::specs::Extension::no_body))]
fn no_body() -> Body
    ensures { result ≡ no_body }
{
    let phases = none_of_four();
    Body { phase: 0, phases }
}

// The v0: its flag, the phases, and reserved_ps.
#[tactic(auto, unfolding(crate::specs::Extension::v0))]
fn read_v0(
    s: &Bits,
    at: usize,
    mode: u32,
    records: PhaseRecords,
    n: usize,
    lookups: &StereoLookups,
) -> Answer<Body>
    requires { n ≤ 4 }
    ensures { answer_of result ≡ reads (v0 mode records.ipd records.opd n) s.now at }
{
    let (phase, after_phase) = read_phase_flag(s, at, mode)?;
    let (phases, after_phases) = read_all_phases(s, after_phase, phase, mode, records, n, lookups)?;
    let (_reserved, next) = s.unset_bit(after_phases, 13)?;
    Ok((Body { phase, phases }, next))
}

// Nothing announced.
#[tactic(auto, unfolding(crate::specs::Extension::no_part))]
fn no_part() -> Part
    ensures { result ≡ no_part }
{
    let body = no_body();
    Part {
        body,
        count: 0,
        value: 0,
    }
}

// Why another id is refused: a second v0, or one that is reserved.
fn why_another(s: &Bits, at: usize) -> u8
    ensures { result ≡ pick (eqb (bits_from s.now.bytes.now at 2) 0) 33 13 }
{
    if bits_at(s.bytes, at, 2) == 0 {
        return 33;
    }
    13
}

// What fills an announced part: v0, and at most 7 fill bits.
#[tactic(auto, unfolding(crate::proofs::Opened::filled))]
fn read_part(
    s: &Bits,
    at: usize,
    mode: u32,
    records: PhaseRecords,
    n: usize,
    lookups: &StereoLookups,
) -> Answer<Part>
    requires { n ≤ 4 }
    ensures { answer_of result ≡ reads (part mode records.ipd records.opd n) s.now at }
{
    let (body, after_body) = read_v0(s, at, mode, records, n, lookups)?;
    let count = s.left(after_body);
    if 7 < count {
        return refused(why_another(s, after_body), after_body);
    }
    let value = bits_at(s.bytes, after_body, count);
    let next = s.end.max(after_body);
    Ok((Part { body, count, value }, next))
}

// The announced part of so many bytes; what is missing inside it is 33.
#[tactic(auto, unfolding(crate::specs::Extension::announced, bits::specs::Inside::inside))]
fn read_announced(
    s: &Bits,
    at: usize,
    size: usize,
    mode: u32,
    records: PhaseRecords,
    n: usize,
    lookups: &StereoLookups,
) -> Answer<Part>
    requires { (n ≤ 4) × (size ≤ 270) }
    ensures { answer_of result ≡ reads (announced mode records.ipd records.opd n size) s.now at }
{
    if size == 0 {
        return Ok((no_part(), at));
    }
    let bits = 8 * size;
    let end = s.end;
    if end.saturating_sub(at) < bits {
        return refused(10, at);
    }
    let announced = Bits {
        bytes: s.bytes,
        end: at + bits,
    };
    renumbered(read_part(&announced, at, mode, records, n, lookups), 33)
}

// The esc_count, after a size of 15.
#[tactic(auto, unfolding(crate::specs::Extension::esc_count))]
fn read_esc(s: &Bits, at: usize, size: u32) -> Answer<u32>
    ensures { answer_of result ≡ reads (esc_count size) s.now at }
{
    if size != 15 {
        return Ok((0, at));
    }
    s.field(at, 8)
}

// No extension.
#[tactic(auto, unfolding(crate::specs::Extension::no_extension))]
pub fn no_extension() -> Extension
    ensures { result ≡ no_extension }
{
    let part = no_part();
    Extension {
        there: 0,
        size: 0,
        esc: 0,
        part,
    }
}

// An extension that is sent.
#[tactic(auto, unfolding(crate::specs::Extension::extension_sent))]
fn read_extension_sent(
    s: &Bits,
    at: usize,
    mode: u32,
    records: PhaseRecords,
    n: usize,
    lookups: &StereoLookups,
) -> Answer<Extension>
    requires { n ≤ 4 }
    ensures { answer_of result ≡ reads (extension_sent mode records.ipd records.opd n) s.now at }
{
    let (size, after_size) = s.field(at, 4)?;
    let (esc, after_esc) = read_esc(s, after_size, size)?;
    let bytes = (size + esc) as usize;
    let (part, next) = read_announced(s, after_esc, bytes, mode, records, n, lookups)?;
    let extension = Extension {
        there: 1,
        size,
        esc,
        part,
    };
    Ok((extension, next))
}

// The extension, where it is enabled, put where it is lent.
#[tactic(auto, unfolding(crate::specs::Extension::extension))]
pub fn read_extension(
    s: &Bits,
    at: usize,
    on: bool,
    mode: u32,
    records: PhaseRecords,
    n: usize,
    lookups: &StereoLookups,
    lent: &mut Extension,
) -> Ended
    requires { n ≤ 4 }
    ensures { ended_answer result lent.new ≡ reads (extension on mode records.ipd records.opd n) s.now at }
{
    if !on {
        *lent = no_extension();
        return Ok(at);
    }
    let (sent, next) = read_extension_sent(s, at, mode, records, n, lookups)?;
    *lent = sent;
    Ok(next)
}

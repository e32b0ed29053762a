// What a payload's contents lead to: whether they are a restart, and the state after them.
ghost use Rattle.std.specs.Prelude.{◌≡◌, eqb, get_or};
ghost use Rattle.stereo_indices.specs.Rows.{no_row};
ghost use Rattle.stereo.specs.Extension.{no_phases};
ghost use Rattle.stereo.specs.Carried.{record_after, last_row, last_phases, phase_records, carried};
ghost use Rattle.stereo.specs.Restart.{across, phases_across, restart};

use crate::{Body, Contents, PhaseRecords, Phases, Setup, State, extensions, headers};
use stereo_indices::{Record, Row, records, rows};

// The row of an envelope; there are four.
fn row_at(rows: &[Row; 4], i: usize) -> Row
    ensures { result ≡ get_or rows.now i no_row }
{
    if i < 4 {
        return rows[i];
    }
    rows::no_row()
}

// The phases of an envelope; there are four.
fn phases_at(phases: &[Phases; 4], i: usize) -> Phases
    ensures { result ≡ get_or phases.now i no_phases }
{
    if i < 4 {
        return phases[i];
    }
    extensions::no_phases()
}

// Whether the first row of a kind is across frequency.
fn is_across(rows: &[Row; 4]) -> bool
    ensures { result ≡ across rows.now }
{
    row_at(rows, 0).time == 0
}

// Whether the first phases are across frequency, where there are any.
#[tactic(auto, unfolding(crate::specs::Restart::phases_across))]
fn are_phases_across(body: &Body) -> bool
    ensures { result ≡ phases_across body.now }
{
    if body.phase != 1 {
        return true;
    }
    let first = phases_at(&body.phases, 0);
    first.ipd.time == 0 && first.opd.time == 0
}

// Whether contents are a restart.
#[tactic(auto, unfolding(crate::specs::Restart::restart))]
pub fn is_restart(contents: &Contents) -> bool
    ensures { result ≡ restart contents.now }
{
    contents.header.there == 1
        && contents.header.iid == 1
        && contents.header.icc == 1
        && 1 <= contents.frame.envelopes
        && is_across(&contents.iid)
        && is_across(&contents.icc)
        && are_phases_across(&contents.extension.part.body)
}

// A kind's record after a payload of n envelopes, of which these are the last one's indices.
#[tactic(auto, unfolding(crate::specs::Carried::record_after))]
fn record_after(on: bool, mode: u32, rec: Record, n: usize, indices: [i8; 34]) -> Record
    ensures { result ≡ record_after on mode rec n indices }
{
    if !on {
        return records::none();
    }
    if n == 0 {
        return rec;
    }
    Record { mode, indices }
}

// The indices of the last of n envelopes; with none, those of the first.
fn last_row(n: usize, rows: &[Row; 4]) -> [i8; 34]
    ensures { result ≡ last_row n rows.now }
{
    row_at(rows, n.saturating_sub(1)).indices
}

// The phases of the last of n envelopes; with none, those of the first.
fn last_phases(n: usize, phases: &[Phases; 4]) -> Phases
    ensures { result ≡ last_phases n phases.now }
{
    phases_at(phases, n.saturating_sub(1))
}

// The phase records after a payload.
#[tactic(auto, unfolding(crate::specs::Carried::phase_records))]
fn phases_after(setup: Setup, state: State, n: usize, body: &Body) -> PhaseRecords
    ensures { result ≡ phase_records setup state n body.now }
{
    let on = body.phase == 1;
    let mode = setup.iidmode;
    let last = last_phases(n, &body.phases);
    PhaseRecords {
        ipd: record_after(on, mode, state.ipd, n, last.ipd.indices),
        opd: record_after(on, mode, state.opd, n, last.opd.indices),
    }
}

// The state after a payload that was read from another.
#[tactic(auto, unfolding(crate::specs::Carried::carried, crate::specs::Carried::carried_in))]
pub fn carried(state: State, contents: &Contents) -> State
    ensures { result ≡ carried state contents.now }
{
    let setup = headers::setup_after(state.setup, contents.header);
    let n = contents.frame.envelopes;
    let levels = last_row(n, &contents.iid);
    let coherences = last_row(n, &contents.icc);
    let phases = phases_after(setup, state, n, &contents.extension.part.body);
    State {
        setup,
        iid: record_after(setup.iid, setup.iidmode, state.iid, n, levels),
        icc: record_after(setup.icc, setup.iccmode, state.icc, n, coherences),
        ipd: phases.ipd,
        opd: phases.opd,
        instep: true,
    }
}

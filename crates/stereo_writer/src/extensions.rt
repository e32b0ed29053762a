// The extension, put into the scratch array.
ghost use Rattle.std.specs.Prelude.{◌+◌, ◌++◌, eqb, ◌≡◌};
ghost use Rattle.stereo_indices.specs.declared.Kind.TheVariants.{Ipd, Opd};
ghost use Rattle.stereo_writer.specs.InnerWrote.{Wrote, Room};
ghost use Rattle.stereo_writer.specs.Spelling.{spell_row, spell_all_phases, spell_body, spell_part, spell_extension};

use crate::rows::put_row;
use crate::scratch::Scratch;
use stereo::{Body, Extension, Part, PhaseRecords, Phases};
use stereo_indices::{Kind, Record};
use tables::StereoWords;

// The phases of an envelope: a row of each kind.
fn put_phases(
    w: &mut Scratch,
    mode: u32,
    records: PhaseRecords,
    phases: Phases,
    words: &StereoWords,
)
    requires { Room 1362 w.old }
    ensures { Wrote 1362 w.old (spell_row Ipd mode records.ipd phases.ipd ++ spell_row Opd mode records.opd phases.opd)
        w.new }
{
    put_row(w, Kind::Ipd, mode, records.ipd, phases.ipd, words);
    put_row(w, Kind::Opd, mode, records.opd, phases.opd, words);
}

// The phases of n envelopes, each after those before it; where enable_ipdopd is 0 there are none.
fn put_all_phases(
    w: &mut Scratch,
    on: u32,
    mode: u32,
    records: PhaseRecords,
    n: usize,
    phases: [Phases; 4],
    words: &StereoWords,
)
    requires { Room 5448 w.old }
    ensures { Wrote 5448 w.old (spell_all_phases on mode records.ipd records.opd n phases) w.new }
{
    if on != 1 {
        return;
    }
    let sent = &phases[..n.min(4)];
    let mut last = records;
    for p in sent {
        put_phases(w, mode, last, *p, words);
        last = PhaseRecords {
            ipd: Record {
                mode,
                indices: p.ipd.indices,
            },
            opd: Record {
                mode,
                indices: p.opd.indices,
            },
        };
    }
}

// v0: its id, enable_ipdopd, the phases and reserved_ps.
fn put_body(
    w: &mut Scratch,
    mode: u32,
    records: PhaseRecords,
    n: usize,
    body: Body,
    words: &StereoWords,
)
    requires { Room 5452 w.old }
    ensures { Wrote 5452 w.old (spell_body mode records.ipd records.opd n body) w.new }
{
    w.put(0, 2);
    w.put(body.phase, 1);
    put_all_phases(w, body.phase, mode, records, n, body.phases, words);
    w.put(0, 1);
}

// What fills the announced part: v0, and at most seven fill bits.
fn put_part(
    w: &mut Scratch,
    mode: u32,
    records: PhaseRecords,
    n: usize,
    part: Part,
    words: &StereoWords,
)
    requires { Room 5459 w.old }
    ensures { Wrote 5459 w.old (spell_part mode records.ipd records.opd n part) w.new }
{
    put_body(w, mode, records, n, part.body, words);
    w.put(part.value, part.count.min(7));
}

// Whether a size and an esc_count announce nothing.
fn is_empty(size: u32, esc: u32) -> bool
    ensures { result ≡ eqb (size + esc) 0 }
{
    size == 0 && esc == 0
}

// The extension, where it is on.
pub fn put_extension(
    w: &mut Scratch,
    on: bool,
    mode: u32,
    records: PhaseRecords,
    n: usize,
    x: Extension,
    words: &StereoWords,
)
    requires { Room 5471 w.old }
    ensures { Wrote 5471 w.old (spell_extension on mode records.ipd records.opd n x) w.new }
{
    if !on {
        return;
    }
    w.put(x.size, 4);
    w.put_if(x.size == 15, x.esc, 8);
    if is_empty(x.size, x.esc) {
        return;
    }
    put_part(w, mode, records, n, x.part, words);
}

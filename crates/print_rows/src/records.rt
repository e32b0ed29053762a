// The stereo state after a payload.
ghost use Rattle.std.specs.Prelude.{◌≡◌, ◌≤◌, length};
ghost use Rattle.print_lines.specs.InnerText.{HoldsLine};
ghost use Rattle.print_rows.specs.InnerStateRows.{state_row, record_row, iid_record, icc_record, ipd_record, opd_record};

use crate::{lists, marks};
use print_lines::{put_line, text};
use std::io;
use stereo::State;
use stereo_indices::Record;

// The set-up, of whose modes 7 was never sent, and the mark.
fn put_state(line: &mut [u8], state: State) -> usize
    requires { 2048 ≤ length line.old }
    ensures { HoldsLine line.old (state_row state) result line.new }
{
    let setup = state.setup;
    let iid = marks::mode(setup.iidmode != 7, setup.iidmode);
    let icc = marks::mode(setup.iccmode != 7, setup.iccmode);
    let level = marks::flag(setup.iid);
    let coherence = marks::flag(setup.icc);
    let ext = marks::flag(setup.ext);
    let step = marks::flag(state.instep);
    put_line(
        line,
        b"  state iid # icc # enabled # # # step #",
        &[iid, icc, level, coherence, ext, step],
    )
}

// A kind's record, after a form for its mode; mode 7 is none.
fn put_record(line: &mut [u8], form: &[u8], rec: Record) -> usize
    requires { (2048 ≤ length line.old) × (length form.now ≤ 16) }
    ensures { HoldsLine line.old (record_row form.now rec) result line.new }
{
    if rec.mode == 7 {
        return put_line(line, form, &[marks::NONE]);
    }
    let indices = rec.indices;
    let at = text::put_form(line, 0, form, &[rec.mode as usize]);
    lists::put_indices(line, at, &indices)
}

// The record of level.
fn put_iid_record(line: &mut [u8], state: State) -> usize
    requires { 2048 ≤ length line.old }
    ensures { HoldsLine line.old (iid_record state) result line.new }
{
    put_record(line, b"  record iid #", state.iid)
}

// The record of coherence.
fn put_icc_record(line: &mut [u8], state: State) -> usize
    requires { 2048 ≤ length line.old }
    ensures { HoldsLine line.old (icc_record state) result line.new }
{
    put_record(line, b"  record icc #", state.icc)
}

// The record of the first phase.
fn put_ipd_record(line: &mut [u8], state: State) -> usize
    requires { 2048 ≤ length line.old }
    ensures { HoldsLine line.old (ipd_record state) result line.new }
{
    put_record(line, b"  record ipd #", state.ipd)
}

// The record of the second phase.
fn put_opd_record(line: &mut [u8], state: State) -> usize
    requires { 2048 ≤ length line.old }
    ensures { HoldsLine line.old (opd_record state) result line.new }
{
    put_record(line, b"  record opd #", state.opd)
}

// The set-up, the mark, and the four records.
pub fn print_state(out: &impl Print, state: State) -> io::Result<()> {
    let mut line = [0u8; 2048];
    let at = put_state(&mut line, state);
    text::write_line(out, &mut line, at)?;
    let at = put_iid_record(&mut line, state);
    text::write_line(out, &mut line, at)?;
    let at = put_icc_record(&mut line, state);
    text::write_line(out, &mut line, at)?;
    let at = put_ipd_record(&mut line, state);
    text::write_line(out, &mut line, at)?;
    let at = put_opd_record(&mut line, state);
    text::write_line(out, &mut line, at)
}

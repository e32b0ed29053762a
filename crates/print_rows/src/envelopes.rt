// The envelopes of a stereo payload.
ghost use Rattle.std.specs.Prelude.{◌≡◌, ◌<◌, ◌≤◌, ◌++◌, length, get_or};
ghost use Rattle.stereo_indices.specs.Rows.{no_row};
ghost use Rattle.stereo.specs.Extension.{no_phases};
ghost use Rattle.print_lines.specs.InnerText.{HoldsLine};
ghost use Rattle.print_rows.specs.InnerEach.{indices_text};
ghost use Rattle.print_rows.specs.InnerEnvelopeRows.{envelope_row, iid_row, icc_row, ipd_row, opd_row};

use crate::{lists, marks};
use print_lines::{put_line, text};
use std::io;
use stereo::{Contents, Phases, Setup};
use stereo_indices::Row;

// The row of the e-th envelope.
fn row_of(rows: [Row; 4], e: usize) -> Row
    requires { e < 4 }
    ensures { result ≡ get_or rows e no_row }
{
    rows[e]
}

// The phases of the e-th envelope.
fn phases_of(phases: [Phases; 4], e: usize) -> Phases
    requires { e < 4 }
    ensures { result ≡ get_or phases e no_phases }
{
    phases[e]
}

// How the four kinds of an envelope were coded; level and coherence are sent where they are on, phases together.
fn put_envelope(line: &mut [u8], contents: Contents, setup: Setup, e: usize) -> usize
    requires { (2048 ≤ length line.old) × (e < 4) }
    ensures { HoldsLine line.old (envelope_row contents setup e) result line.new }
{
    let levels = contents.iid;
    let coherences = contents.icc;
    let phases = contents.extension.part.body.phases;
    let iid = row_of(levels, e);
    let icc = row_of(coherences, e);
    let p = phases_of(phases, e);
    let on = contents.extension.part.body.phase == 1;
    let iid = marks::direction(setup.iid, iid.time);
    let icc = marks::direction(setup.icc, icc.time);
    let ipd = marks::direction(on, p.ipd.time);
    let opd = marks::direction(on, p.opd.time);
    put_line(
        line,
        b"  envelope # iid # icc # ipd # opd #",
        &[e, iid, icc, ipd, opd],
    )
}

// The indices of a row, after its words.
fn put_row(line: &mut [u8], words: &[u8], row: Row) -> usize
    requires { (2048 ≤ length line.old) × (length words.now ≤ 16) }
    ensures { HoldsLine line.old (words.now ++ indices_text row.indices) result line.new }
{
    let indices = row.indices;
    let at = text::put(line, 0, words);
    lists::put_indices(line, at, &indices)
}

// The level indices of an envelope.
fn put_iid(line: &mut [u8], contents: Contents, e: usize) -> usize
    requires { (2048 ≤ length line.old) × (e < 4) }
    ensures { HoldsLine line.old (iid_row contents e) result line.new }
{
    let rows = contents.iid;
    put_row(line, b"  iid", row_of(rows, e))
}

// The coherence indices of an envelope.
fn put_icc(line: &mut [u8], contents: Contents, e: usize) -> usize
    requires { (2048 ≤ length line.old) × (e < 4) }
    ensures { HoldsLine line.old (icc_row contents e) result line.new }
{
    let rows = contents.icc;
    put_row(line, b"  icc", row_of(rows, e))
}

// The indices of the first phase of an envelope.
fn put_ipd(line: &mut [u8], contents: Contents, e: usize) -> usize
    requires { (2048 ≤ length line.old) × (e < 4) }
    ensures { HoldsLine line.old (ipd_row contents e) result line.new }
{
    let phases = contents.extension.part.body.phases;
    let p = phases_of(phases, e);
    put_row(line, b"  ipd", p.ipd)
}

// The indices of the second phase of an envelope.
fn put_opd(line: &mut [u8], contents: Contents, e: usize) -> usize
    requires { (2048 ≤ length line.old) × (e < 4) }
    ensures { HoldsLine line.old (opd_row contents e) result line.new }
{
    let phases = contents.extension.part.body.phases;
    let p = phases_of(phases, e);
    put_row(line, b"  opd", p.opd)
}

// The level and coherence indices of the e-th envelope.
fn print_levels(out: &impl Print, line: &mut [u8], contents: Contents, e: usize) -> io::Result<()>
    requires { (2048 ≤ length line.old) × (e < 4) }
{
    let at = put_iid(line, contents, e);
    text::write_line(out, line, at)?;
    let at = put_icc(line, contents, e);
    text::write_line(out, line, at)
}

// The phase indices of the e-th envelope.
fn print_phases(out: &impl Print, line: &mut [u8], contents: Contents, e: usize) -> io::Result<()>
    requires { (2048 ≤ length line.old) × (e < 4) }
{
    let at = put_ipd(line, contents, e);
    text::write_line(out, line, at)?;
    let at = put_opd(line, contents, e);
    text::write_line(out, line, at)
}

// The e-th envelope: how its kinds were coded, and their indices.
fn print_envelope(
    out: &impl Print,
    line: &mut [u8],
    contents: Contents,
    setup: Setup,
    e: usize,
) -> io::Result<()>
    requires { (2048 ≤ length line.old) × (e < 4) }
{
    let at = put_envelope(line, contents, setup, e);
    text::write_line(out, line, at)?;
    print_levels(out, line, contents, e)?;
    print_phases(out, line, contents, e)
}

// The envelopes, of which there are at most four.
pub fn print_envelopes(
    out: &impl Print,
    line: &mut [u8],
    contents: Contents,
    setup: Setup,
) -> io::Result<()>
    requires { 2048 ≤ length line.old }
{
    for e in 0..contents.frame.envelopes.min(4) {
        print_envelope(out, line, contents, setup, e)?;
    }
    Ok(())
}

// What a stereo payload holds.
ghost use Rattle.std.specs.Prelude.{◌≡◌, ◌≤◌, length};
ghost use Rattle.print_lines.specs.InnerText.{HoldsLine};
ghost use Rattle.print_rows.specs.InnerStereoRows.{header_row, border_count, frame_row, part_row, extension_row};

use crate::{envelopes, lists, marks};
use print_lines::{put_line, text};
use std::io;
use stereo::{Contents, Extension, Frame, Header, Part, Setup};

// The header.
fn put_header(line: &mut [u8], h: Header) -> usize
    requires { 2048 ≤ length line.old }
    ensures { HoldsLine line.old (header_row h) result line.new }
{
    if h.there != 1 {
        return put_line(line, b"  header -", &[]);
    }
    let iid = marks::mode(h.iid == 1, h.iidmode);
    let icc = marks::mode(h.icc == 1, h.iccmode);
    put_line(
        line,
        b"  header iid # icc # ext #",
        &[iid, icc, h.ext as usize],
    )
}

// How many borders are sent.
fn border_count(f: Frame) -> usize
    ensures { result ≡ border_count f }
{
    if f.class == 1 {
        return f.envelopes;
    }
    0
}

// The frame class, and a border for each envelope where they are variable.
fn put_frame(line: &mut [u8], f: Frame) -> usize
    requires { 2048 ≤ length line.old }
    ensures { HoldsLine line.old (frame_row f) result line.new }
{
    let borders = f.borders;
    let at = text::put_form(line, 0, b"  class # borders", &[f.class as usize]);
    lists::put_numbers(line, at, &borders, border_count(f))
}

// The part of an extension that is there: its size, and where it is not empty the phase flag and the fill bits.
fn put_part(line: &mut [u8], size: usize, p: Part) -> usize
    requires { 2048 ≤ length line.old }
    ensures { HoldsLine line.old (part_row size p) result line.new }
{
    if size == 0 {
        return put_line(line, b"  extension size #", &[size]);
    }
    let at = text::put_form(
        line,
        0,
        b"  extension size # phase # fill ",
        &[size, p.body.phase as usize],
    );
    lists::put_fill(line, at, p.value, p.count)
}

// The extension.
fn put_extension(line: &mut [u8], x: Extension) -> usize
    requires { 2048 ≤ length line.old }
    ensures { HoldsLine line.old (extension_row x) result line.new }
{
    if x.there != 1 {
        return put_line(line, b"  extension -", &[]);
    }
    let size = (x.size as usize) + (x.esc as usize);
    put_part(line, size, x.part)
}

// The contents, from the set-up after them.
pub fn print_contents(out: &impl Print, contents: Contents, setup: Setup) -> io::Result<()> {
    let mut line = [0u8; 2048];
    let at = put_header(&mut line, contents.header);
    text::write_line(out, &mut line, at)?;
    let at = put_frame(&mut line, contents.frame);
    text::write_line(out, &mut line, at)?;
    envelopes::print_envelopes(out, &mut line, contents, setup)?;
    let at = put_extension(&mut line, contents.extension);
    text::write_line(out, &mut line, at)
}

// The lines of an ADTS file's frames.
ghost use Rattle.std.specs.Prelude.{◌≡◌, ◌≤◌, length};
ghost use Rattle.print_lines.specs.InnerText.{HoldsLine};
ghost use Rattle.print_lines.specs.InnerFrames.{frame_line, refused_frame};

use crate::{places, put_line, text};
use std::io;

// The line of a frame that was accepted: where it starts, its length, and what its channel stream has.
fn put_frame(
    line: &mut [u8],
    k: usize,
    byte: usize,
    size: usize,
    index: usize,
    gain: usize,
    lines: usize,
    bits: usize,
) -> usize
    requires { 2048 ≤ length line.old }
    ensures { HoldsLine line.old (frame_line k byte size index gain lines bits) result line.new }
{
    put_line(
        line,
        b"# frame at # length # index # channel gain # lines # bits #",
        &[k, byte, size, index, gain, lines, bits],
    )
}

// The line of a frame that was refused, with its place.
fn put_refused_frame(line: &mut [u8], k: usize, byte: usize, number: usize, place: usize) -> usize
    requires { 2048 ≤ length line.old }
    ensures { HoldsLine line.old (refused_frame k byte number place) result line.new }
{
    let at = text::put_form(line, 0, b"# frame at # refused #", &[k, byte, number]);
    places::put_place(line, at, true, number, place)
}

// The line of a frame that was accepted is written.
pub fn say_frame(
    out: &impl Print,
    k: usize,
    byte: usize,
    size: usize,
    index: usize,
    gain: usize,
    lines: usize,
    bits: usize,
) -> io::Result<()> {
    let mut line = [0u8; 2048];
    let at = put_frame(&mut line, k, byte, size, index, gain, lines, bits);
    text::write_line(out, &mut line, at)
}

// The line of a frame that was refused is written.
pub fn say_refused_frame(
    out: &impl Print,
    k: usize,
    byte: usize,
    number: usize,
    place: usize,
) -> io::Result<()> {
    let mut line = [0u8; 2048];
    let at = put_refused_frame(&mut line, k, byte, number, place);
    text::write_line(out, &mut line, at)
}

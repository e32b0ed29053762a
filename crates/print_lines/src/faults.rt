// Why no image is made of an ADTS file: a line on standard error that names the frame, which a program that ends with it writes once.
ghost use Rattle.std.specs.Prelude.{◌≡◌, ◌≤◌, length};
ghost use Rattle.print_lines.specs.InnerText.{HoldsLine};
ghost use Rattle.print_lines.specs.InnerFrames.{refused_fault, index_fault, count_fault, size_fault};

use crate::{put_line, text};

// A frame that is refused.
fn put_refused_fault(line: &mut [u8], k: usize, byte: usize, number: usize) -> usize
    requires { 2048 ≤ length line.old }
    ensures { HoldsLine line.old (refused_fault k byte number) result line.new }
{
    put_line(
        line,
        b"oarcradler: frame # at # refused #",
        &[k, byte, number],
    )
}

// A frame whose sampling index is not the first frame's.
fn put_index_fault(line: &mut [u8], k: usize, byte: usize, index: usize, first: usize) -> usize
    requires { 2048 ≤ length line.old }
    ensures { HoldsLine line.old (index_fault k byte index first) result line.new }
{
    put_line(
        line,
        b"oarcradler: frame # at # has index #, the first frame has #",
        &[k, byte, index, first],
    )
}

// A frame whose payloads are too many.
fn put_count_fault(line: &mut [u8], k: usize, byte: usize) -> usize
    requires { 2048 ≤ length line.old }
    ensures { HoldsLine line.old (count_fault k byte) result line.new }
{
    put_line(
        line,
        b"oarcradler: frame # at # is one too many: an image has at most 1024 payloads",
        &[k, byte],
    )
}

// A frame whose stream is too long.
fn put_size_fault(line: &mut [u8], k: usize, byte: usize) -> usize
    requires { 2048 ≤ length line.old }
    ensures { HoldsLine line.old (size_fault k byte) result line.new }
{
    put_line(
        line,
        b"oarcradler: frame # at # is too much: an image has at most 65535 bytes",
        &[k, byte],
    )
}

// That a frame is refused is told.
pub fn tell_refused(err: &impl Print, k: usize, byte: usize, number: usize) {
    let mut line = [0u8; 2048];
    let at = put_refused_fault(&mut line, k, byte, number);
    let _ = text::write_line(err, &mut line, at);
}

// That a frame's sampling index is not the first frame's is told.
pub fn tell_index(err: &impl Print, k: usize, byte: usize, index: usize, first: usize) {
    let mut line = [0u8; 2048];
    let at = put_index_fault(&mut line, k, byte, index, first);
    let _ = text::write_line(err, &mut line, at);
}

// That a frame's payloads are too many is told.
pub fn tell_count(err: &impl Print, k: usize, byte: usize) {
    let mut line = [0u8; 2048];
    let at = put_count_fault(&mut line, k, byte);
    let _ = text::write_line(err, &mut line, at);
}

// That a frame's stream is too long is told.
pub fn tell_size(err: &impl Print, k: usize, byte: usize) {
    let mut line = [0u8; 2048];
    let at = put_size_fault(&mut line, k, byte);
    let _ = text::write_line(err, &mut line, at);
}

// The lines that the programs print: of each payload one in the listing; of each frame of an ADTS file one; and why no image is made of a
// file. A form is words with a mark `#` in place of each number.
#![tactic(auto)]

ghost use Rattle.std.specs.Prelude.{◌≡◌, ◌*◌, ◌<◌, ◌≤◌, length};
ghost use Rattle.print_lines.specs.InnerText.{line_of, with_text, form_text, HoldsLine};
ghost use Rattle.print_lines.specs.InnerListing.{refused_image, payload_count, refusal_text, refused_line, accepted_line, payload_line};

use std::io;

pub mod faults;
pub mod frames;
mod places;
pub mod text;

// The five numbers of a payload: its refusal and the bit at which it was refused, or 0, and what it holds.
#[derive(Clone, Copy)]
pub struct Payload {
    pub number: usize,
    pub place: usize,
    pub first: usize,
    pub second: usize,
    pub bits: usize,
}

// A form, with the numbers in place of its marks, put at the front of a lent line.
pub fn put_line(line: &mut [u8], form: &[u8], numbers: &[usize]) -> usize
    requires { 20 * length form.now < length line.old }
    ensures { HoldsLine line.old (form_text form.now numbers.now) result line.new }
{
    text::put_form(line, 0, form, numbers)
}

// The line of a bad image.
fn put_refused_image(line: &mut [u8], number: u8) -> usize
    requires { 1024 ≤ length line.old }
    ensures { HoldsLine line.old (refused_image number) result line.new }
{
    put_line(line, b"image refused #", &[number as usize])
}

// The first line of a good one.
fn put_count(line: &mut [u8], count: usize) -> usize
    requires { 1024 ≤ length line.old }
    ensures { HoldsLine line.old (payload_count count) result line.new }
{
    put_line(line, b"payloads #", &[count])
}

// What is said of a payload that was refused.
fn put_refusal(line: &mut [u8], k: usize, number: usize) -> usize
    ensures { line_of line.new result ≡ with_text (line_of line.old 0) (refusal_text k number) }
{
    let numbers = [k, number];
    if k % 2 == 0 {
        return text::put_form(line, 0, b"# channel refused #", &numbers);
    }
    text::put_form(line, 0, b"# stereo refused #", &numbers)
}

// The line of a payload that was refused, with its place where that is told.
fn put_refused(line: &mut [u8], told: bool, k: usize, number: usize, place: usize) -> usize
    requires { 1024 ≤ length line.old }
    ensures { HoldsLine line.old (refused_line told k number place) result line.new }
{
    let at = put_refusal(line, k, number);
    places::put_place(line, at, told, number, place)
}

// The line of a payload that was accepted: a channel stream's gain, non-zero lines and bits used, or a stereo payload's envelopes, 0
// and bits used.
fn put_accepted(line: &mut [u8], k: usize, first: usize, second: usize, bits: usize) -> usize
    requires { 1024 ≤ length line.old }
    ensures { HoldsLine line.old (accepted_line k first second bits) result line.new }
{
    if k % 2 == 0 {
        return put_line(
            line,
            b"# channel gain # lines # bits #",
            &[k, first, second, bits],
        );
    }
    put_line(line, b"# stereo envelopes # bits #", &[k, first, bits])
}

// The line of a payload, from its five numbers; the place of a refusal is told, or is not.
fn put_payload(line: &mut [u8], told: bool, k: usize, p: Payload) -> usize
    requires { 1024 ≤ length line.old }
    ensures { HoldsLine line.old (payload_line told k p) result line.new }
{
    if p.number != 0 {
        return put_refused(line, told, k, p.number, p.place);
    }
    put_accepted(line, k, p.first, p.second, p.bits)
}

// The line of a bad image is written.
pub fn say_refused_image(out: &impl Print, number: u8) -> io::Result<()> {
    let mut line = [0u8; 1024];
    let at = put_refused_image(&mut line, number);
    text::write_line(out, &mut line, at)
}

// The first line of a good one is written.
pub fn say_count(out: &impl Print, count: usize) -> io::Result<()> {
    let mut line = [0u8; 1024];
    let at = put_count(&mut line, count);
    text::write_line(out, &mut line, at)
}

// The line of a payload, from its five numbers, is written; the place of a refusal is told, or is not.
pub fn say_payload(out: &impl Print, told: bool, k: usize, p: Payload) -> io::Result<()> {
    let mut line = [0u8; 1024];
    let at = put_payload(&mut line, told, k, p);
    text::write_line(out, &mut line, at)
}

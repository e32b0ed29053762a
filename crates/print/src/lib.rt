// A tag image on standard input, printed: the line of each payload, and in full what it holds and the stereo state after it.
#![tactic(auto)]

ghost use Rattle.std.specs.Prelude.{◌≡◌, ◌≤◌, ◌<◌, length, IfOk};
ghost use Rattle.image.specs.Image.{header_of, part_of, bytes_of};
ghost use Rattle.image_outline.specs.Answers.{state_from};
ghost use Rattle.io.specs.Counts.{IsPrefixLen};
ghost use Rattle.print.specs.InnerStates.{printed_from, printed_after};

use print_lines::Payload;
use std::io::Result;
use stereo::{State, states};

mod channels;
mod input;
mod stereos;

// What the k-th payload holds, from the state before it; the state after it comes back.
fn print_details(out: &impl Print, image: &[u8], k: usize, index: u8, state: State) -> Result<State>
    requires { (part_of image.now k).number ≡ 0 }
    ensures { IfOk result (λ next. next ≡ state_from state k (bytes_of image.now k)) }
{
    let part = image::known_part(image, k);
    let bytes = &image[part.start..part.end];
    if k % 2 == 0 {
        channels::print_channel(out, bytes, index)?;
        return Ok(state);
    }
    stereos::print_stereo(out, state, bytes)
}

// The k-th payload's line, from its five numbers in the outline; in full with the place of a refusal.
fn print_line(out: &impl Print, k: usize, rows: &[usize], full: bool) -> Result<()>
    requires { (k < 1024) × (5120 ≤ length rows.now) }
{
    let at = 5 * k;
    let payload = Payload {
        number: rows[at],
        place: rows[at + 1],
        first: rows[at + 2],
        second: rows[at + 3],
        bits: rows[at + 4],
    };
    print_lines::say_payload(out, full, k, payload)
}

// The k-th payload: its line, and in full what it holds, from the state before it.
fn print_payload(
    out: &impl Print,
    image: &[u8],
    k: usize,
    index: u8,
    rows: &[usize],
    full: bool,
    state: State,
) -> Result<State>
    requires { (k < 1024) × (5120 ≤ length rows.now)
        × ((part_of image.now k).number ≡ 0) × (state ≡ printed_from full image.now k) }
    ensures { IfOk result (λ next. next ≡ printed_after full state k (bytes_of image.now k)) }
{
    print_line(out, k, rows, full)?;
    if full {
        return print_details(out, image, k, index, state);
    }
    Ok(state)
}

// The payloads of an image that has this outline, in their order, up to the first line that is not written.
fn print_payloads(
    out: &impl Print,
    image: &[u8],
    count: usize,
    index: u8,
    rows: &[usize],
    full: bool,
) -> Result<()>
    requires { (count ≤ 1024) × (5120 ≤ length rows.now)
        × (header_of image.now ≡ record { number = 0; count = count; index = index }) }
{
    let mut state = states::fresh();
    for k in 0..count {
        state = print_payload(out, image, k, index, rows, full, state)?;
    }
    Ok(())
}

// An image.
fn print_image(out: &impl Print, image: &[u8], full: bool) -> Result<()> {
    let mut rows = [0usize; 5120];
    let header = image_outline::read_image(image, &mut rows);
    if header.number != 0 {
        return print_lines::say_refused_image(out, header.number);
    }
    print_lines::say_count(out, header.count)?;
    print_payloads(out, image, header.count, header.index, &rows, full)
}

// The first n bytes of the input; where they fill the buffer, the image is too long.
fn print_read(out: &impl Print, buffer: &[u8], n: usize, full: bool) -> Result<()>
    requires { IsPrefixLen n buffer.now }
{
    if 65535 < n {
        return print_lines::say_refused_image(out, 5);
    }
    print_image(out, &buffer[..n], full)
}

// The image on standard input. A fault of the input or the output is told on standard error, of which tools/run makes an exit status.
pub fn print_input(rt: &(impl Input + Print + Eprint), full: bool) {
    let mut image = io::large_buffer();
    let Ok(size) = input::read_input(&mut rt.reader(), &mut image) else {
        let _ = rt.eprintln("oarcradler: standard input cannot be read");
        return;
    };
    if print_read(rt, &image, size, full).is_err() {
        let _ = rt.eprintln("oarcradler: standard output cannot be written: lines are missing");
    }
}

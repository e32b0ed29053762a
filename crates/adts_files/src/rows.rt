// What is listed of a frame.
ghost use Rattle.std.specs.Prelude.{◌≡◌, ◌≤◌, eqb, length};
ghost use Rattle.bits.specs.Reader.{pick};
ghost use Rattle.adts_files.specs.InnerRows.{row_of};

use sounding::{count_sounding, no_lines};

// The numbers of a frame: its refusal and the bit at which it was refused, or 0, its length and sampling index where its header is
// accepted, its gain, sounding lines and bits where its stream is, and how far it is to the next frame, or 0 where none is known.
#[derive(Clone, Copy)]
pub struct Row {
    pub number: usize,
    pub place: usize,
    pub length: usize,
    pub index: usize,
    pub gain: usize,
    pub lines: usize,
    pub bits: usize,
    pub step: usize,
}

fn wide(x: u8) -> usize
    ensures { result ≡ x }
{
    x as usize
}

// How far it is to the next frame: no next frame is known after a header that is refused, which has no length, and after 10.
fn step_of(number: u8, length: usize) -> usize
    ensures { result ≡ pick (eqb number 10) 0 length }
{
    let cut_off = number == 10;
    if cut_off {
        return 0;
    }
    length
}

// The numbers of the frame at the front of a slice.
pub fn read_row(bytes: &[u8]) -> Row
    ensures { (result ≡ row_of bytes.now) × (result.step ≤ length bytes.now) }
{
    let mut lines = no_lines();
    let mut factors = [0u8; 120];
    let mut books = [0u8; 120];
    let f = adts::read_frame(bytes, 0, &mut lines, &mut factors, &mut books);
    Row {
        number: wide(f.reading.number),
        place: f.reading.place,
        length: f.length,
        index: wide(f.index),
        gain: wide(f.reading.gain),
        lines: count_sounding(&lines),
        bits: f.reading.bits,
        step: step_of(f.reading.number, f.length),
    }
}

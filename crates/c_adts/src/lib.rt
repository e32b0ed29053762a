// Frames of an ADTS file, answered in bytes.
#![tactic(auto)]

ghost use Rattle.std.specs.Prelude.{◌≡◌, ◌≤◌, ◌<◌, length};
ghost use Rattle.bits.specs.Bytes.{word_of, over};
ghost use Rattle.bits.specs.Calls.{returned, answered};
ghost use Rattle.c_adts.specs.FrameBytes.{frame_bytes, frame_answer_after};
ghost use Rattle.c_adts.specs.ReadFrame.{ReadFramePromise};
ghost use Rattle.c_adts.specs.UnwrapFrame.{UnwrapFramePromise};
ghost use Rattle.c_adts.specs.WrapStream.{WrapStreamPromise};

use adts::{Framed, Wrapped};
use bits::bytes;
use bits::calls::{call_refusal, returned};
use c_channel::{narrow, put_reading};

// What was found of a frame is put at the front of a lent answer.
fn put_framed(answer: &mut [u8], r: Framed)
    requires { 22 ≤ length answer.old }
    ensures { answer.new ≡ over answer.old 0 (frame_bytes r) }
{
    put_reading(answer, r.reading);
    let word = bytes::word_of(r.length);
    bytes::put(answer, 17, &word);
    let last = [r.index];
    bytes::put(answer, 21, &last);
}

// What comes back of a frame, whose numbers are put in the lent answer where it is accepted.
fn told_frame(answer: &mut [u8], r: Framed) -> u32
    requires { (22 ≤ length answer.old) × (r.reading.place < 16777216) }
    ensures { (result ≡ returned r.reading.number r.reading.place)
        × (answer.new ≡ frame_answer_after r answer.old) }
{
    let reading = r.reading;
    if reading.number != 0 {
        return returned(reading.number, reading.place);
    }
    put_framed(answer, r);
    returned(reading.number, reading.place)
}

// The frame at a byte of a file: the lent outputs and the lent answer get its numbers.
pub fn oarcradler_read_frame(
    file: &[u8],
    start: usize,
    lines: &mut [i16],
    factors: &mut [u8],
    books: &mut [u8],
    answer: &mut [u8],
) -> u32
    ensures { ReadFramePromise
        (record {
          file = file.now;
          start = start;
          outputs = record { lines = lines.old; factors = factors.old; books = books.old };
          answer = answer.old;
        })
        result (record { lines = lines.new; factors = factors.new; books = books.new }) answer.new }
{
    let number = call_refusal(file.len(), start, file.len(), 22, answer.len());
    if number != 0 {
        return number;
    }
    let r = adts::read_frame(file, start, lines, factors, books);
    told_frame(answer, r)
}

// The frame at a byte of a file: its channel stream is put at the front of a lent buffer, and the lent answer gets its numbers.
pub fn oarcradler_unwrap_frame(file: &[u8], start: usize, out: &mut [u8], answer: &mut [u8]) -> u32
    ensures { UnwrapFramePromise
        (record { file = file.now; start = start; out = out.old; answer = answer.old })
        result out.new answer.new }
{
    let number = call_refusal(file.len(), start, file.len(), 22, answer.len());
    if number != 0 {
        return number;
    }
    let r = adts::unwrap(file, start, out);
    told_frame(answer, r)
}

// The length of a frame is put at the front of a lent answer.
fn put_length(answer: &mut [u8], size: usize)
    requires { 4 ≤ length answer.old }
    ensures { answer.new ≡ over answer.old 0 (word_of size) }
{
    let word = bytes::word_of(size);
    bytes::put(answer, 0, &word);
}

// What comes back of a wrapping, whose length is put in the lent answer where it is accepted.
fn told_wrapping(answer: &mut [u8], r: Wrapped) -> u32
    requires { (4 ≤ length answer.old) × (r.place < 16777216) }
    ensures { (result ≡ returned r.number r.place)
        × (answer.new ≡ answered r.number (word_of r.length) answer.old) }
{
    if r.number != 0 {
        return returned(r.number, r.place);
    }
    put_length(answer, r.length);
    returned(r.number, r.place)
}

// The channel stream in the bytes from start to end of a buffer, for a sampling index, is put as one frame at the front of a lent buffer,
// and the lent answer gets the frame's length.
pub fn oarcradler_wrap_stream(
    buf: &[u8],
    start: usize,
    end: usize,
    index: u32,
    out: &mut [u8],
    answer: &mut [u8],
) -> u32
    ensures { WrapStreamPromise
        (record {
          payload = record { bytes = buf.now; start = start; end = end };
          index = index;
          out = out.old;
          answer = answer.old;
        })
        result out.new answer.new }
{
    let number = call_refusal(buf.len(), start, end, 4, answer.len());
    if number != 0 {
        return number;
    }
    let r = adts::wrap(buf, start, end, narrow(index), out);
    told_wrapping(answer, r)
}

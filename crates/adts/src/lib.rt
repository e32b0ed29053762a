// ADTS files: a frame read, a frame unwrapped, a channel stream wrapped.
#![tactic(auto)]

ghost use Rattle.std.specs.Prelude.{◌≡◌, ◌≤◌, ◌<◌, ◌*◌, length};
ghost use Rattle.bits.specs.Packed.{bytes_for};
ghost use Rattle.bits.specs.Payload.{whole};
ghost use Rattle.channel.specs.Stream.{stream};
ghost use Rattle.channel.specs.Promise.{refusal, reading_of, lines_after, factors_after, books_after};
ghost use Rattle.adts.specs.Frame.{frame_header};
ghost use Rattle.adts.specs.Wrapping.{frame_length};
ghost use Rattle.adts.specs.Promise.{framed, fitted, unwrapped, wrapped_of, wrapped_bytes};
ghost use Rattle.adts.specs.Promise.{ReadFramePromise, UnwrapPromise, WrapPromise};
ghost use Rattle.adts.specs.InnerAnswers.{Used, first_stream, stream_of};

use crate::block::{read_block, read_lone_block};
use crate::cut::cut_out;
use crate::header::{Header, read_header};
use crate::wrapping::{frame_length, put_frame};
use bits::{Bits, Ended};
use channel::Reading;
use channel::stream::read_payload;

mod block;
mod cut;
mod header;
mod wrapping;

// What a call found of a frame: its sampling index and its length in bytes where its header is accepted, and the reading of its stream.
#[derive(Clone, Copy)]
pub struct Framed {
    pub index: u8,
    pub length: usize,
    pub reading: Reading,
}

// What wrapping gave: a refusal's number and the bit at which the stream was refused, or 0 with the frame's length in bytes. A record with
// a number, as the promise is of it.
#[derive(Clone, Copy)]
pub struct Wrapped {
    pub number: u8,
    pub place: usize,
    pub length: usize,
}

// The answer to a frame whose header is refused, or was not looked at.
fn unframed(number: u8, place: usize) -> Framed
    ensures { result ≡ record { index = 0; length = 0; reading = refusal number place } }
{
    Framed {
        index: 0,
        length: 0,
        reading: channel::refused(number, place),
    }
}

// The answer to a frame with a header.
fn with_header(header: Header, reading: Reading) -> Framed
    ensures { result ≡ record { index = header.index; length = header.length; reading = reading } }
{
    Framed {
        index: header.index,
        length: header.length,
        reading,
    }
}

// The frame of a header at the front of a slice, as its bits.
fn frame_bits<'a>(s: &'a [u8], header: Header) -> Bits<'a>
    requires { (header.length ≤ length s.now) × (header.length < 8192) }
    ensures { (result.bytes.now ≡ s.now) × (result.end ≡ 8 * header.length) }
{
    Bits {
        bytes: s,
        end: 8 * header.length,
    }
}

// The frame of a header at the front of a slice: its lines, scale factors and books are written to the front of the lent outputs where it
// is accepted.
fn read_after(
    s: &[u8],
    header: Header,
    lines: &mut [i16],
    factors: &mut [u8],
    books: &mut [u8],
) -> Reading
    requires { (header.length ≤ length s.now)
        × (header.length < 8192)
        × (1024 ≤ length lines.old)
        × (120 ≤ length factors.old)
        × (120 ≤ length books.old) }
    ensures value { result ≡ reading_of (stream_of header s.now) }
    ensures lines_after { lines.new ≡ lines_after (stream_of header s.now) lines.old }
    ensures factors_after { factors.new ≡ factors_after (stream_of header s.now) factors.old }
    ensures books_after { books.new ≡ books_after (stream_of header s.now) books.old }
{
    let mut band_books = [0u8; 120];
    let mut band_factors = [0u8; 120];
    let mut all_lines = [0i16; 1024];
    let read = read_block(
        &frame_bits(s, header),
        header.index,
        &mut band_books,
        &mut band_factors,
        &mut all_lines,
    );
    match read {
        Ok((head, bits)) => {
            channel::put_front(lines, &all_lines);
            channel::put_front(factors, &band_factors);
            channel::put_front(books, &band_books);
            channel::answer(head, bits)
        }
        Err(refusal) => channel::refused(refusal.number, refusal.place),
    }
}

// The frame at the front of a slice: its lines, scale factors and books are written to the front of the lent outputs where it is accepted.
fn read_first(s: &[u8], lines: &mut [i16], factors: &mut [u8], books: &mut [u8]) -> Framed
    requires { (1024 ≤ length lines.old) × (120 ≤ length factors.old) × (120 ≤ length books.old) }
    ensures value { result ≡ framed (frame_header s.now) (reading_of (first_stream s.now)) }
    ensures lines_after { lines.new ≡ lines_after (first_stream s.now) lines.old }
    ensures factors_after { factors.new ≡ factors_after (first_stream s.now) factors.old }
    ensures books_after { books.new ≡ books_after (first_stream s.now) books.old }
{
    match read_header(s) {
        Ok((header, _)) => with_header(header, read_after(s, header, lines, factors, books)),
        Err(refusal) => unframed(refusal.number, refusal.place),
    }
}

// The frame at a byte of a file: its lines, scale factors and books are written to the front of the lent outputs where it is accepted.
#[tactic(auto, using(crate::proofs::PromiseLaws::outputs_laws), unfolding(crate::specs::Promise::header_at))]
pub fn read_frame(
    file: &[u8],
    start: usize,
    lines: &mut [i16],
    factors: &mut [u8],
    books: &mut [u8],
) -> Framed
    ensures { ReadFramePromise
        (record {
          file = file.now;
          start = start;
          outputs = record { lines = lines.old; factors = factors.old; books = books.old };
        })
        result (record { lines = lines.new; factors = factors.new; books = books.new }) }
{
    if file.len() < start {
        return unframed(1, 0);
    }
    if !channel::outputs_fit(lines.len(), factors.len(), books.len()) {
        return unframed(2, 0);
    }
    read_first(&file[start..], lines, factors, books)
}

// The frame of a header at the front of a slice: the bits that its stream used are put at the front of a lent buffer where it is accepted
// and they fit.
#[tactic(auto, using(crate::proofs::BlockLaws::short_laws))]
fn unwrap_after(s: &[u8], header: Header, out: &mut [u8]) -> Reading
    requires { (header.length ≤ length s.now) × (header.length < 8192) }
    ensures value { result ≡ reading_of (fitted bytes_for (length out.old) (stream_of header s.now)) }
    ensures out_after { out.new ≡ unwrapped s.now (fitted bytes_for (length out.old) (stream_of header s.now)) out.old }
{
    match read_lone_block(&frame_bits(s, header), header.index) {
        Ok((head, bits)) => {
            if out.len() < (bits + 7) / 8 {
                return channel::refused(2, 0);
            }
            cut_out(out, s, 63, bits);
            channel::answer(head, bits)
        }
        Err(refusal) => channel::refused(refusal.number, refusal.place),
    }
}

// The frame at the front of a slice: the bits that its stream used are put at the front of a lent buffer where it is accepted and they
// fit.
fn unwrap_first(s: &[u8], out: &mut [u8]) -> Framed
    ensures value { result ≡ framed (frame_header s.now)
        (reading_of (fitted bytes_for (length out.old) (first_stream s.now))) }
    ensures out_after { out.new ≡ unwrapped s.now
        (fitted bytes_for (length out.old) (first_stream s.now)) out.old }
{
    match read_header(s) {
        Ok((header, _)) => with_header(header, unwrap_after(s, header, out)),
        Err(refusal) => unframed(refusal.number, refusal.place),
    }
}

// The frame at a byte of a file: the bits that its stream used are put at the front of a lent buffer where it is accepted and they fit.
#[tactic(auto, using(crate::proofs::PromiseLaws::rest_laws), unfolding(crate::specs::Promise::header_at))]
pub fn unwrap(file: &[u8], start: usize, out: &mut [u8]) -> Framed
    ensures { UnwrapPromise file.now start out.old result out.new }
{
    if file.len() < start {
        return unframed(1, 0);
    }
    unwrap_first(&file[start..], out)
}

// The answer to a wrapping that is refused.
fn unwrappable(number: u8, place: usize) -> Wrapped
    ensures { result ≡ record { number = number; place = place; length = 0 } }
{
    Wrapped {
        number,
        place,
        length: 0,
    }
}

// How many bits the channel stream in a slice used.
fn bits_used(s: &[u8], index: u8) -> Ended
    ensures { Used result (whole (stream index) s.now) }
{
    let mut books = [0u8; 120];
    let mut factors = [0u8; 120];
    let mut lines = [0i16; 1024];
    let (_, bits) = read_payload(s, index, &mut books, &mut factors, &mut lines)?;
    Ok(bits)
}

// The channel stream in a slice, wrapped at the front of a lent buffer where it is accepted and its frame fits.
#[tactic(auto, using(crate::proofs::PromiseLaws::short_laws))]
fn wrap_slice(s: &[u8], index: u8, out: &mut [u8]) -> Wrapped
    ensures value { result ≡ wrapped_of (fitted frame_length (length out.old) (whole (stream index) s.now)) }
    ensures out_after { out.new ≡ wrapped_bytes index s.now
        (fitted frame_length (length out.old) (whole (stream index) s.now)) out.old }
{
    match bits_used(s, index) {
        Ok(bits) => {
            let length = frame_length(bits);
            if out.len() < length {
                return unwrappable(2, 0);
            }
            put_frame(out, s, index, bits);
            Wrapped {
                number: 0,
                place: 0,
                length,
            }
        }
        Err(refusal) => unwrappable(refusal.number, refusal.place),
    }
}

// The channel stream in the bytes from start to end of a buffer, for a sampling index, wrapped as one frame at the front of a lent
// buffer where it is accepted and its frame fits.
#[tactic(auto, using(crate::proofs::PromiseLaws::range_laws), unfolding(crate::specs::Promise::wrappable))]
pub fn wrap(buf: &[u8], start: usize, end: usize, index: u8, out: &mut [u8]) -> Wrapped
    ensures { WrapPromise
        (record {
          payload = record { bytes = buf.now; start = start; end = end };
          index = index;
          out = out.old;
        })
        result out.new }
{
    let number = channel::channel_refusal(buf.len(), start, end, true, index);
    if number != 0 {
        return unwrappable(number, 0);
    }
    wrap_slice(&buf[start..end], index, out)
}

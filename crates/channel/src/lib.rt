// One AAC channel stream: read whole from a range of a lent buffer.
#![tactic(auto)]

ghost use Rattle.std.specs.Prelude.{◌≡◌, ◌++◌, ◌≤◌, length, drop};
ghost use Rattle.bits.specs.Payload.{in_buffer, whole};
ghost use Rattle.bits.specs.Calls.{first_number};
ghost use Rattle.channel.specs.Stream.{stream};
ghost use Rattle.channel.specs.Promise.{outputs_fit, channel_tests, refusal, accepted, reading_of};
ghost use Rattle.channel.specs.Promise.{lines_after, factors_after, books_after, ReadChannelPromise};

use crate::stream::Head;
use bits::bytes;
use bits::calls::is_known_index;

pub mod stream;

// What a call found: 0 and the numbers of a stream, with the windows of each group and the bits used; or a refusal's number and the bit
// at which it was refused. A record with a number, as the promise's `reading_of` and the demands are of it.
#[derive(Clone, Copy)]
pub struct Reading {
    pub number: u8,
    pub place: usize,
    pub gain: u8,
    pub sequence: u8,
    pub shape: u8,
    pub max_sfb: u8,
    pub group_count: u8,
    pub groups: [u8; 8],
    pub bits: usize,
}

// Whether outputs of so many places have room for what a stream has.
pub fn outputs_fit(lines: usize, factors: usize, books: usize) -> bool
    ensures { result ≡ outputs_fit lines factors books }
{
    1024 <= lines && 120 <= factors && 120 <= books
}

// What is judged before any bit is read, where the outputs have room or have not: a refusal's number, or 0, as a `Reading` has it.
pub fn channel_refusal(size: usize, start: usize, end: usize, room: bool, index: u8) -> u8
    ensures { result ≡ first_number (channel_tests (in_buffer start end size) room index) }
{
    if end < start {
        return 1;
    }
    if size < end {
        return 1;
    }
    if !room {
        return 2;
    }
    if !is_known_index(index as usize) {
        return 3;
    }
    0
}

// The answer to a refusal at a bit.
pub fn refused(number: u8, place: usize) -> Reading
    ensures { result ≡ refusal number place }
{
    Reading {
        number,
        place,
        gain: 0,
        sequence: 0,
        shape: 0,
        max_sfb: 0,
        group_count: 0,
        groups: [0u8; 8],
        bits: 0,
    }
}

// The answer to a stream with a head, and the bits that it used.
pub fn answer(head: Head, bits: usize) -> Reading
    ensures { result ≡ accepted head bits }
{
    let window = head.window;
    let found = channel_bands::grouping::groups_of(window.sequence == 2, window.grouping);
    let windows = found.windows;
    Reading {
        number: 0,
        place: 0,
        gain: head.gain,
        sequence: window.sequence,
        shape: window.shape,
        max_sfb: window.max_sfb,
        group_count: found.count as u8,
        groups: windows,
        bits,
    }
}

// Values are copied to the front of a lent output.
pub fn put_front<T: Copy, const N: usize>(out: &mut [T], values: &[T; N])
    requires { N ≤ length out.old }
    ensures { out.new ≡ values.now ++ drop N out.old }
{
    bytes::put(out, 0, values);
}

// The channel stream in a slice: its lines, scale factors and books are written to the front of the lent outputs where it is accepted.
fn read_slice(
    s: &[u8],
    index: u8,
    lines: &mut [i16],
    factors: &mut [u8],
    books: &mut [u8],
) -> Reading
    requires { (1024 ≤ length lines.old) × (120 ≤ length factors.old) × (120 ≤ length books.old) }
    ensures value { result ≡ reading_of (whole (stream index) s.now) }
    ensures lines_after { lines.new ≡ lines_after (whole (stream index) s.now) lines.old }
    ensures factors_after { factors.new ≡ factors_after (whole (stream index) s.now) factors.old }
    ensures books_after { books.new ≡ books_after (whole (stream index) s.now) books.old }
{
    let mut band_books = [0u8; 120];
    let mut band_factors = [0u8; 120];
    let mut all_lines = [0i16; 1024];
    match stream::read_payload(s, index, &mut band_books, &mut band_factors, &mut all_lines) {
        Ok((head, bits)) => {
            put_front(lines, &all_lines);
            put_front(factors, &band_factors);
            put_front(books, &band_books);
            answer(head, bits)
        }
        Err(refusal) => refused(refusal.number, refusal.place),
    }
}

// The channel stream in the bytes from start to end of a buffer, for a sampling index: its lines, scale factors and books are written to
// the front of the lent outputs where it is accepted.
pub fn read_channel(
    buf: &[u8],
    start: usize,
    end: usize,
    index: u8,
    lines: &mut [i16],
    factors: &mut [u8],
    books: &mut [u8],
) -> Reading
    ensures { ReadChannelPromise
        (record {
          payload = record { bytes = buf.now; start = start; end = end };
          index = index;
          outputs = record { lines = lines.old; factors = factors.old; books = books.old };
        })
        result (record { lines = lines.new; factors = factors.new; books = books.new }) }
{
    let room = outputs_fit(lines.len(), factors.len(), books.len());
    let number = channel_refusal(buf.len(), start, end, room, index);
    if number != 0 {
        return refused(number, 0);
    }
    read_slice(&buf[start..end], index, lines, factors, books)
}

// A channel stream, answered in bytes.
#![tactic(auto)]

ghost use Rattle.std.specs.Prelude.{◌≡◌, ◌≤◌, ◌<◌, ltb, length};
ghost use Rattle.bits.specs.Reader.{pick};
ghost use Rattle.bits.specs.Bytes.{over};
ghost use Rattle.bits.specs.Calls.{returned, answered};
ghost use Rattle.c_channel.specs.ReadChannel.{channel_bytes, ReadChannelPromise};

use bits::bytes;
use bits::calls::{call_refusal, returned};
use channel::Reading;

// An index as the reader takes it; one that is too large is none.
pub fn narrow(index: u32) -> u8
    ensures { result ≡ pick (ltb index 256) index 0 }
{
    if index < 256 {
        return index as u8;
    }
    0
}

// The windows of each group are put where they stand.
fn put_groups(answer: &mut [u8], groups: [u8; 8])
    requires { 17 ≤ length answer.old }
    ensures { (answer.new ≡ over answer.old 9 groups) × (length groups ≡ 8) }
{
    bytes::put(answer, 9, &groups);
}

// A reading is put at the front of a lent answer: 17 bytes.
pub fn put_reading(answer: &mut [u8], r: Reading)
    requires { 17 ≤ length answer.old }
    ensures { (answer.new ≡ over answer.old 0 (channel_bytes r)) × (length (channel_bytes r) ≡ 17) }
{
    let word = bytes::word_of(r.bits);
    bytes::put(answer, 0, &word);
    let head = [r.gain, r.sequence, r.shape, r.max_sfb, r.group_count];
    bytes::put(answer, 4, &head);
    let groups = r.groups;
    put_groups(answer, groups);
}

// What comes back of a reading, whose numbers are put in the lent answer where it is accepted.
fn told(answer: &mut [u8], r: Reading) -> u32
    requires { (17 ≤ length answer.old) × (r.place < 16777216) }
    ensures { (result ≡ returned r.number r.place)
        × (answer.new ≡ answered r.number (channel_bytes r) answer.old) }
{
    if r.number != 0 {
        return returned(r.number, r.place);
    }
    put_reading(answer, r);
    returned(r.number, r.place)
}

// The channel stream in the bytes from start to end of a buffer, for a sampling index: the lent outputs and the lent answer get its
// numbers.
pub fn oarcradler_read_channel(
    buf: &[u8],
    start: usize,
    end: usize,
    index: u32,
    lines: &mut [i16],
    factors: &mut [u8],
    books: &mut [u8],
    answer: &mut [u8],
) -> u32
    ensures { ReadChannelPromise
        (record {
          payload = record { bytes = buf.now; start = start; end = end };
          index = index;
          outputs = record { lines = lines.old; factors = factors.old; books = books.old };
          answer = answer.old;
        })
        result (record { lines = lines.new; factors = factors.new; books = books.new }) answer.new }
{
    let number = call_refusal(buf.len(), start, end, 17, answer.len());
    if number != 0 {
        return number;
    }
    let r = channel::read_channel(buf, start, end, narrow(index), lines, factors, books);
    told(answer, r)
}

// A bit reader that keeps a payload and its place together, above the plain one.
#![tactic(auto)]

ghost use Rattle.std.specs.Prelude.{◌≡◌, ◌<◌, ◌≤◌, ◌*◌, length};
ghost use Rattle.bits.specs.Field.{field};
ghost use Rattle.bits.specs.InnerAnswers.{answer_of, reads};
ghost use Rattle.bit_reader.specs.Took.{last_place, HoldPromise, TookAtPromise, TakePromise};

use bits::{Answer, Bits, bits_at};

// The payload, and the place of the next bit.
#[derive(Clone, Copy)]
pub struct BitReader<'a> {
    pub src: &'a [u8],
    pub at: usize,
}

// A field that was taken: number 0, its value and the next place; or a refusal's number, 0 and the place as it was. A
// record with a number, as the promise's `took_at` is of it.
#[derive(Clone, Copy)]
pub struct Took {
    pub number: u8,
    pub value: u32,
    pub next: usize,
}

// The place after the last bit.
fn last_place(src: &[u8]) -> usize
    ensures { (result ≡ last_place src.now) × (result ≤ 8 * length src.now) }
{
    if 2305843009213693951 < src.len() {
        return 18446744073709551615;
    }
    8 * src.len()
}

// A refusal: nothing is taken, and the place stays.
fn refused(number: u8, at: usize) -> Took
    ensures { result ≡ record { number = number; value = 0; next = at } }
{
    Took {
        number,
        value: 0,
        next: at,
    }
}

// A field of 21 to 32 bits: its first bits, and its last 20.
fn wide_field(s: &Bits, at: usize, n: usize) -> Answer<u32>
    requires { (20 < n) × (n ≤ 32) }
    ensures { answer_of result ≡ reads (field n) s.now at }
{
    if s.end.saturating_sub(at) < n {
        return bits::refused(10, at);
    }
    let high = bits_at(s.bytes, at, n - 20);
    let low = bits_at(s.bytes, at + n - 20, 20);
    Ok((high * 1048576 + low, at + n))
}

// A field of at most 32 bits: a plain one up to 20 bits, else a wide one.
fn any_field(s: &Bits, at: usize, n: usize) -> Answer<u32>
    requires { n ≤ 32 }
    ensures { answer_of result ≡ reads (field n) s.now at }
{
    if 20 < n {
        return wide_field(s, at, n);
    }
    s.field(at, n)
}

// The field of n bits at a place of a payload.
#[tactic(auto, unfolding(crate::specs::Took::took_at))]
pub fn took_at(src: &[u8], at: usize, n: usize) -> Took
    ensures { TookAtPromise src.now at n result }
{
    if 32 < n {
        return refused(10, at);
    }
    let s = Bits {
        bytes: src,
        end: last_place(src),
    };
    match any_field(&s, at, n) {
        Ok((value, next)) => Took {
            number: 0,
            value,
            next,
        },
        Err(refusal) => refused(refusal.number, at),
    }
}

// A reader at the first bit of a payload.
pub fn hold<'a>(src: &'a [u8]) -> BitReader<'a>
    ensures { HoldPromise src.entry result }
{
    BitReader { src, at: 0 }
}

// The next field of n bits is taken, and the reader moved past it; a refusal leaves it where it was.
pub fn take<'s, 'a>(r: &'s mut BitReader<'a>, n: usize) -> Took
    ensures { TakePromise r.old n result r.new }
{
    let c = *r;
    let t = took_at(c.src, c.at, n);
    r.at = t.next;
    t
}

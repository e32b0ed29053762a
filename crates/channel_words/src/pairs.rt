// The words of books 5 to 11: two values each.
ghost use Rattle.std.specs.Prelude.{◌≡◌, ◌+◌, ◌*◌, ◌/◌, ◌≤◌, IfOk};
ghost use Rattle.bits.specs.InnerAnswers.{answer_of, ended_answer, reads};
ghost use Rattle.bits.specs.Loop.{counted};
ghost use Rattle.words.specs.InnerLookup.{looked};
ghost use Rattle.channel_words.specs.InnerWords.{kind, values_by, put_by, words_by, magnitude_of, put_escaped, escaped_by};
ghost use Rattle.channel_words.specs.InnerWords.{Readable, PairBase};
ghost use Rattle.channel_words.specs.InnerPairs.{pair_answer, PairFits};

use crate::bands::{Kind, read_words};
use crate::entries::entry_in;
use crate::signs::{lowered, sign_count, with_sign};
use bits::window::bit_of;
use bits::{Answer, Bits, Ended, refused};
use words::{escape, lookup};

// Two numbers with a sign bit each.
#[derive(Clone, Copy)]
struct Pair {
    first: u32,
    first_sign: u32,
    second: u32,
    second_sign: u32,
}

// The first number of an entry of two, by how many numbers a value can be.
fn first_number(entry: u32, base: u32) -> u32
    requires { PairBase base }
    ensures { result ≡ entry / base }
{
    if base == 8 {
        return entry / 8;
    }
    if base == 13 {
        return entry / 13;
    }
    entry / 17
}

// Two unsigned numbers with their sign bits.
#[tactic(auto, unfolding(crate::specs::InnerWords::values_by))]
fn read_pair(s: &Bits, at: usize, look: &[u16], bits: usize, base: u32) -> Answer<Pair>
    requires { Readable look.now bits (base * base) × PairBase base }
    ensures values { pair_answer result ≡ reads (values_by (looked look.now bits) (kind 2 base 0)) s.now at }
    ensures fits { IfOk result (λ r. PairFits r.0) }
{
    let w = s.window(at);
    let (entry, after_word) = entry_in(w, s, at, look, bits)?;
    let first = first_number(entry, base);
    let second = entry - base * first;
    let signs = after_word - at;
    let after_first = signs + sign_count(first);
    let size = after_first + sign_count(second);
    if s.end - at < size {
        return refused(10, s.end);
    }
    let pair = Pair {
        first,
        first_sign: bit_of(w, signs),
        second,
        second_sign: bit_of(w, after_first),
    };
    Ok((pair, at + size))
}

// A number, or the escape that it is the flag of.
#[tactic(auto, unfolding(crate::specs::InnerWords::magnitude_of))]
fn read_magnitude(s: &Bits, at: usize, d: u32) -> Answer<u32>
    requires { d ≤ 16 }
    ensures magnitude { answer_of result ≡ reads (magnitude_of d) s.now at }
    ensures fits { IfOk result (λ r. r.0 ≤ 8191) }
{
    if d == 16 {
        return escape::read_escape(s, at);
    }
    Ok((d, at))
}

// Two signed values.
#[derive(Clone, Copy)]
struct SignedPair;

impl Kind for SignedPair {
    ghost SIZE = { 2 };

    ghost readable = { λ self look bits. Readable look bits 81 };

    ghost word = { λ self look bits. put_by (looked look bits) (kind 2 9 4) };

    const SIZE: usize = 2;

    #[tactic(auto, unfolding(crate::specs::InnerWords::put_by, crate::specs::InnerWords::values_by))]
    fn read(
        &self,
        s: &Bits,
        at: usize,
        look: &[u16],
        bits: usize,
        line: usize,
        lines: &mut [i16; 1024],
    ) -> Ended {
        let (entry, next) = lookup::read_word(s, at, look, bits)?;
        lines[line] = lowered(entry / 9 % 9, 4);
        lines[line + 1] = lowered(entry % 9, 4);
        Ok(next)
    }
}

// Two unsigned values with their sign bits, then their escapes.
#[derive(Clone, Copy)]
struct UnsignedPair {
    base: u32,
}

impl Kind for UnsignedPair {
    ghost SIZE = { 2 };

    ghost readable = { λ self look bits. Readable look bits (self.base * self.base) × PairBase self.base };

    ghost word = { λ self look bits. put_escaped (looked look bits) self.base };

    const SIZE: usize = 2;

    #[tactic(auto, unfolding(crate::specs::InnerWords::put_escaped))]
    fn read(
        &self,
        s: &Bits,
        at: usize,
        look: &[u16],
        bits: usize,
        line: usize,
        lines: &mut [i16; 1024],
    ) -> Ended {
        let (pair, after_signs) = read_pair(s, at, look, bits, self.base)?;
        let (first, after_first) = read_magnitude(s, after_signs, pair.first)?;
        let (second, after_second) = read_magnitude(s, after_first, pair.second)?;
        lines[line] = with_sign(first, pair.first_sign);
        lines[line + 1] = with_sign(second, pair.second_sign);
        Ok(after_second)
    }
}

// The words of a band of two signed values each.
pub fn read_signed_pairs(
    s: &Bits,
    at: usize,
    look: &[u16],
    bits: usize,
    first: usize,
    words: usize,
    lines: &mut [i16; 1024],
) -> Ended
    requires { Readable look.now bits 81 × (first + words * 2 ≤ 1024) }
    ensures { ended_answer result lines.new
        ≡ reads (counted 0 words (words_by (looked look.now bits) (kind 2 9 4) first) lines.old) s.now at }
{
    let kind = SignedPair;
    read_words(&kind, s, at, look, bits, first, words, lines)
}

// The words of a band of two unsigned values each, with their escapes.
pub fn read_unsigned_pairs(
    s: &Bits,
    at: usize,
    look: &[u16],
    bits: usize,
    base: u32,
    first: usize,
    words: usize,
    lines: &mut [i16; 1024],
) -> Ended
    requires { Readable look.now bits (base * base) × PairBase base × (first + words * 2 ≤ 1024) }
    ensures { ended_answer result lines.new
        ≡ reads (counted 0 words (escaped_by (looked look.now bits) base first) lines.old) s.now at }
{
    read_words(
        &UnsignedPair { base },
        s,
        at,
        look,
        bits,
        first,
        words,
        lines,
    )
}

// The words of books 1 to 4: four values each.
ghost use Rattle.std.specs.Prelude.{◌≡◌, ◌+◌, ◌*◌, ◌≤◌};
ghost use Rattle.bits.specs.InnerAnswers.{ended_answer, reads};
ghost use Rattle.bits.specs.Loop.{counted};
ghost use Rattle.words.specs.InnerLookup.{looked};
ghost use Rattle.channel_words.specs.InnerWords.{kind, put_by, words_by, Readable};

use crate::bands::{Kind, read_words};
use crate::entries::entry_in;
use crate::signs::{lowered, sign_count, with_sign};
use bits::window::bit_of;
use bits::{Bits, Ended, refused};
use words::lookup;

// Four signed values.
#[derive(Clone, Copy)]
struct SignedQuad;

impl Kind for SignedQuad {
    ghost SIZE = { 4 };

    ghost readable = { λ self look bits. Readable look bits 81 };

    ghost word = { λ self look bits. put_by (looked look bits) (kind 4 3 1) };

    const SIZE: usize = 4;

    #[tactic(auto, unfolding(crate::specs::InnerWords::put_by, crate::specs::InnerWords::values_by))]
    fn read(
        &self,
        s: &Bits,
        at: usize,
        look: &[u16],
        bits: usize,
        line: usize,
        lines: &mut [i16; 1024],
    ) -> Ended {
        let (entry, next) = lookup::read_word(s, at, look, bits)?;
        lines[line] = lowered(entry / 27 % 3, 1);
        lines[line + 1] = lowered(entry / 9 % 3, 1);
        lines[line + 2] = lowered(entry / 3 % 3, 1);
        lines[line + 3] = lowered(entry % 3, 1);
        Ok(next)
    }
}

// Four unsigned values with their sign bits.
#[derive(Clone, Copy)]
struct UnsignedQuad;

impl Kind for UnsignedQuad {
    ghost SIZE = { 4 };

    ghost readable = { λ self look bits. Readable look bits 81 };

    ghost word = { λ self look bits. put_by (looked look bits) (kind 4 3 0) };

    const SIZE: usize = 4;

    #[tactic(auto, unfolding(crate::specs::InnerWords::put_by, crate::specs::InnerWords::values_by))]
    fn read(
        &self,
        s: &Bits,
        at: usize,
        look: &[u16],
        bits: usize,
        line: usize,
        lines: &mut [i16; 1024],
    ) -> Ended {
        let w = s.window(at);
        let (entry, after_word) = entry_in(w, s, at, look, bits)?;
        let a = entry / 27 % 3;
        let b = entry / 9 % 3;
        let c = entry / 3 % 3;
        let d = entry % 3;
        let first = after_word - at;
        let second = first + sign_count(a);
        let third = second + sign_count(b);
        let fourth = third + sign_count(c);
        let size = fourth + sign_count(d);
        if s.end - at < size {
            return refused(10, s.end);
        }
        lines[line] = with_sign(a, bit_of(w, first));
        lines[line + 1] = with_sign(b, bit_of(w, second));
        lines[line + 2] = with_sign(c, bit_of(w, third));
        lines[line + 3] = with_sign(d, bit_of(w, fourth));
        Ok(at + size)
    }
}

// The words of a band of four signed values each.
pub fn read_signed_quads(
    s: &Bits,
    at: usize,
    look: &[u16],
    bits: usize,
    first: usize,
    words: usize,
    lines: &mut [i16; 1024],
) -> Ended
    requires { Readable look.now bits 81 × (first + words * 4 ≤ 1024) }
    ensures { ended_answer result lines.new
        ≡ reads (counted 0 words (words_by (looked look.now bits) (kind 4 3 1) first) lines.old) s.now at }
{
    let kind = SignedQuad;
    read_words(&kind, s, at, look, bits, first, words, lines)
}

// The words of a band of four unsigned values each.
pub fn read_unsigned_quads(
    s: &Bits,
    at: usize,
    look: &[u16],
    bits: usize,
    first: usize,
    words: usize,
    lines: &mut [i16; 1024],
) -> Ended
    requires { Readable look.now bits 81 × (first + words * 4 ≤ 1024) }
    ensures { ended_answer result lines.new
        ≡ reads (counted 0 words (words_by (looked look.now bits) (kind 4 3 0) first) lines.old) s.now at }
{
    let kind = UnsignedQuad;
    read_words(&kind, s, at, look, bits, first, words, lines)
}

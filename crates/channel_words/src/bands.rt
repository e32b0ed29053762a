// The words of a band, of whatever kind its book is.
ghost use Rattle.std.specs.Prelude.{◌≡◌, ◌+◌, ◌*◌, ◌≤◌, ℕ, List, ℤ};
ghost use Rattle.bits.specs.InnerAnswers.{ended_answer, reads};
ghost use Rattle.bits.specs.Loop.{counted};
ghost use Rattle.bits.specs.Reader.{Reader};

use bits::{Bits, Ended};

// A kind of word: how many values it stands for, and what reads them into the lines, from a line on.
pub trait Kind {
    ghost SIZE: { ℕ };

    // what is asked of a lookup by so many bits first
    ghost readable: { Self → List ℕ → ℕ → Type 0 };

    // a word of a lookup, put in the lines from a line on
    ghost word: { Self → List ℕ → ℕ → ℕ → List ℤ → Reader (List ℤ) };

    const SIZE: usize;

    fn read(
        &self,
        s: &Bits,
        at: usize,
        look: &[u16],
        bits: usize,
        line: usize,
        lines: &mut [i16; 1024],
    ) -> Ended
        requires { readable self.now look.now bits × (line + SIZE ≤ 1024) }
        ensures { ended_answer result lines.new
            ≡ reads (word self.now look.now bits line lines.old) s.now at };
}

// So many words of a kind, from a line on.
pub fn read_words<K: Kind>(
    kind: &K,
    s: &Bits,
    at: usize,
    look: &[u16],
    bits: usize,
    first: usize,
    words: usize,
    lines: &mut [i16; 1024],
) -> Ended
    requires { K.readable kind.now look.now bits × (first + words * K.SIZE ≤ 1024) }
    ensures { ended_answer result lines.new
        ≡ reads (counted 0 words (λ t. K.word kind.now look.now bits (first + t * K.SIZE)) lines.old) s.now at }
{
    let mut place = at;
    for t in 0..words {
        place = kind.read(s, place, look, bits, first + t * K::SIZE, lines)?;
    }
    Ok(place)
}

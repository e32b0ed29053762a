// The entry of a word whose sign bits follow it: one window holds them all.
ghost use Rattle.std.specs.Prelude.{◌≡◌, ◌+◌, ◌-◌, ◌≤◌, ℕ, IfOk};
ghost use Rattle.bits.specs.InnerAnswers.{answer_of, reads};
ghost use Rattle.bits.specs.InnerWindow.{window_of};
ghost use Rattle.words.specs.InnerLookup.{looked};
ghost use Rattle.channel_words.specs.InnerWords.{Readable};

use bits::{Answer, Bits};
use words::lookup;

// The entry whose word stands at a place, where a window was loaded.
pub fn entry_in(w: u32, s: &Bits, at: usize, look: &[u16], bits: usize) -> Answer<u32>
    requires { (w ≡ window_of s.now.bytes.now at (s.now.end - at)) × (count : ℕ) × Readable look.now bits count }
    ensures word { answer_of result ≡ reads (looked look.now bits) s.now at }
    ensures inside { IfOk result (λ r. (at ≤ r.1) × (r.1 ≤ s.now.end) × (r.1 ≤ at + 20)) }
{
    lookup::answer(lookup::leaf(look, bits, w), at, s.end)
}

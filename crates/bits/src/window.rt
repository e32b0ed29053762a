// A window of bits, loaded at once.
ghost use Rattle.std.specs.Prelude.{◌≡◌, ◌*◌, ◌-◌, ◌/◌, ◌%◌, ◌<◌, ◌≤◌, ◌^◌, length, get_or};
ghost use Rattle.bits.specs.InnerWindow.{window_of};

use crate::{Bits, bits_at};

// A byte, as a number.
fn byte_at(s: &[u8], i: usize) -> u32
    requires { i < length s.now }
    ensures { (result ≡ get_or s.now i 0) × (result < 256) }
{
    s[i] as u32
}

// The window of the last bits, of which there are so many.
fn last_window(s: &[u8], at: usize, have: usize) -> u32
    ensures { result ≡ window_of s.now at have }
{
    let n = have.min(24);
    bits_at(s, at, n) << (24 - n)
}

impl Bits<'_> {
    // The 24 bits from a place on, with zeros for those from the end on.
    pub fn window(&self, at: usize) -> u32
        ensures { result ≡ window_of self.now.bytes.now at (self.now.end - at) }
    {
        let s = self.bytes;
        let left = self.left(at);
        if left < 32 {
            return last_window(s, at, left);
        }
        let i = at / 8;
        let w = ((byte_at(s, i) * 256 + byte_at(s, i + 1)) * 256 + byte_at(s, i + 2)) * 256
            + byte_at(s, i + 3);
        (w >> (8 - at % 8)) % 16777216
    }
}

// The i-th bit of a window.
pub fn bit_of(w: u32, i: usize) -> u32
    requires { i < 24 }
    ensures { result ≡ w / 2 ^ (23 - i) % 2 }
{
    (w >> (23 - i)) % 2
}

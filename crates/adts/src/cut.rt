// Bits of a slice, put into a lent buffer.
ghost use Rattle.std.specs.Prelude.{◌≡◌, ◌++◌, ◌+◌, ◌*◌, ◌<◌, ◌≤◌, ◌^◌, length, drop, replicate};
ghost use Rattle.bits.specs.Bytes.{over};
ghost use Rattle.bits.specs.Packed.{put_all, bytes_for};
ghost use Rattle.adts.specs.Cut.{each_bit, cut_out};

use bits::bits_at;
use bits::write::put_bits;

// The first n bytes of a lent buffer become 0.
pub fn clear(out: &mut [u8], n: usize)
    requires { n ≤ length out.old }
    ensures { out.new ≡ replicate n 0 ++ drop n out.old }
{
    out[..n].fill(0);
}

// The n bits from a place of a slice are put at a place.
#[tactic(auto, using(crate::proofs::CutLaws::run_laws))]
pub fn put_run(out: &mut [u8], at: usize, s: &[u8], from: usize, n: usize)
    requires { (at + n ≤ 8 * length out.old) × (at + n < 2 ^ 32) × (from + n < 2 ^ 32) }
    ensures { out.new ≡ put_all out.old at (each_bit s.now from n) }
{
    for i in 0..n {
        put_bits(out, at + i, bits_at(s, from + i, 1), 1);
    }
}

// The n bits from a place of a slice are put at the front of a lent buffer, the last byte filled up with zero bits.
#[tactic(auto, using(crate::proofs::CutLaws::cut_laws), unfolding(crate::specs::Cut::cut_out))]
pub fn cut_out(out: &mut [u8], s: &[u8], from: usize, n: usize)
    requires { (bytes_for n ≤ length out.old) × (from + n < 2 ^ 31) }
    ensures { out.new ≡ over out.old 0 (cut_out s.now from n) }
{
    clear(out, (n + 7) / 8);
    put_run(out, 0, s, from, n);
}

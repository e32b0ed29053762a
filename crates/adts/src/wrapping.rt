// A channel stream, put into a lent buffer as a frame.
ghost use Rattle.std.specs.Prelude.{◌≡◌, ◌+◌, ◌*◌, ◌<◌, ◌≤◌, ◌^◌, length};
ghost use Rattle.bits.specs.Bytes.{over};
ghost use Rattle.bits.specs.Packed.{put_all};
ghost use Rattle.adts.specs.Wrapping.{spell_kind, spell_voice, spell_variable_half, spell_block, frame_length, wrapping};

use crate::cut::{clear, put_run};
use bits::write::put_bits;

// The first fields of a header, up to the profile.
#[tactic(auto, unfolding(bits::specs::Packed::put_all, crate::specs::Wrapping::spell_kind))]
fn put_kind(out: &mut [u8])
    requires { 7 ≤ length out.old }
    ensures { out.new ≡ put_all out.old 0 spell_kind }
{
    put_bits(out, 0, 4095, 12);
    put_bits(out, 12, 0, 1);
    put_bits(out, 13, 0, 2);
    put_bits(out, 15, 1, 1);
    put_bits(out, 16, 1, 2);
}

// The fields from the sampling index to the end of the fixed half.
#[tactic(auto, unfolding(bits::specs::Packed::put_all, crate::specs::Wrapping::spell_voice))]
fn put_voice(out: &mut [u8], index: u8)
    requires { 7 ≤ length out.old }
    ensures { out.new ≡ put_all out.old 18 (spell_voice index) }
{
    put_bits(out, 18, index as u32, 4);
    put_bits(out, 22, 0, 1);
    put_bits(out, 23, 1, 3);
    put_bits(out, 26, 0, 1);
    put_bits(out, 27, 0, 1);
}

// The other half, with the frame's length in bytes.
#[tactic(auto, unfolding(bits::specs::Packed::put_all, crate::specs::Wrapping::spell_variable_half))]
fn put_variable_half(out: &mut [u8], size: u32)
    requires { 7 ≤ length out.old }
    ensures { out.new ≡ put_all out.old 28 (spell_variable_half size) }
{
    put_bits(out, 28, 0, 1);
    put_bits(out, 29, 0, 1);
    put_bits(out, 30, size, 13);
    put_bits(out, 43, 2047, 11);
    put_bits(out, 54, 0, 2);
}

// The raw block of the stream that is the first n bits of a slice.
#[tactic(auto, using(crate::proofs::WrappingLaws::run_laws), unfolding(bits::specs::Packed::put_all, crate::specs::Wrapping::spell_block))]
fn put_block(out: &mut [u8], s: &[u8], n: usize)
    requires { (66 + n ≤ 8 * length out.old) × (n < 2 ^ 31) }
    ensures { out.new ≡ put_all out.old 56 (spell_block s.now n) }
{
    put_bits(out, 56, 0, 3);
    put_bits(out, 59, 0, 4);
    put_run(out, 63, s, 0, n);
    put_bits(out, 63 + n, 7, 3);
}

// How many bytes the frame of a stream of n bits has.
pub fn frame_length(n: usize) -> usize
    requires { n < 2 ^ 31 }
    ensures { result ≡ frame_length n }
{
    (n + 73) / 8
}

// The frame of the stream that is the first n bits of a slice, at the front of a lent buffer.
#[tactic(auto, using(crate::proofs::WrappingLaws::frame_laws), unfolding(crate::specs::Wrapping::wrapping))]
pub fn put_frame(out: &mut [u8], s: &[u8], index: u8, n: usize)
    requires { (frame_length n ≤ length out.old) × (n < 2 ^ 31) }
    ensures { out.new ≡ over out.old 0 (wrapping index s.now n) }
{
    let size = frame_length(n);
    clear(out, size);
    put_kind(out);
    put_voice(out, index);
    put_variable_half(out, size as u32);
    put_block(out, s, n);
}

// Indices as bytes of two's complement, and those of a record or a row put into a lent buffer.
ghost use Rattle.std.specs.Prelude.{◌≡◌, ◌+◌, ◌≤◌, length};
ghost use Rattle.std.proofs.Common.{of_z, to_z};
ghost use Rattle.std.specs.Int.{w8};
ghost use Rattle.bits.specs.Bytes.{over};
ghost use Rattle.c_layout.specs.Indices.{indices_at, numbered};

use bits::bytes::byte_of;

// An index as a byte of two's complement.
fn index_byte(x: i8) -> u8
    ensures { result ≡ of_z w8 x }
{
    if x < 0 {
        ((x as i16) + 256) as u8
    } else {
        x as u8
    }
}

// The index that a byte of two's complement is.
fn index_of(b: u8) -> i8
    ensures { result ≡ to_z w8 b }
{
    if b < 128 {
        b as i8
    } else {
        ((b as i16) - 256) as i8
    }
}

// The 34 indices from a place on.
pub fn indices_at(s: &[u8], at: usize) -> [i8; 34]
    requires { at + 34 ≤ length s.now }
    ensures { result ≡ indices_at s.now at }
{
    let mut out = [0i8; 34];
    for i in 0..34 {
        out[i] = index_of(s[at + i]);
    }
    out
}

// A number and 34 indices are put at a place.
pub fn put_numbered(out: &mut [u8], at: usize, n: u32, indices: [i8; 34])
    requires { at + 35 ≤ length out.old }
    ensures { (out.new ≡ over out.old at (numbered n indices)) × (length (numbered n indices) ≡ 35) }
{
    out[at] = byte_of(n);
    for (i, x) in indices.iter().enumerate() {
        out[at + 1 + i] = index_byte(*x);
    }
}

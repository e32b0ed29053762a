// Pieces of bits, put one after another into a scratch array of zeros, whose first bytes are then copied out.
ghost use Rattle.std.specs.Prelude.{◌≡◌, ◌++◌, ◌+◌, ◌-◌, ◌*◌, ◌%◌, ◌<◌, ◌≤◌, ◌^◌, min, length, take, drop};
ghost use Rattle.bits.specs.Packed.{put};
ghost use Rattle.bits.specs.InnerReplaced.{replaced_bits};

// A byte whose m bits from weight 2^k up are the low m bits of a number.
fn replaced_bits(x: u8, k: usize, m: usize, v: u32) -> u8
    requires { k + m ≤ 8 }
    ensures { result ≡ replaced_bits x k m v }
{
    let unit = 1u32 << k;
    let range = 1u32 << m;
    let w = x as u32;
    (((w >> (k + m)) * range + v % range) * unit + w % unit) as u8
}

// How many of the bits that are left to be put at a place stand in the byte of the first.
fn bits_in_byte(place: usize, left: usize) -> usize
    ensures { result ≡ min (8 - place % 8) left }
{
    let room = 8 - place % 8;
    if room < left {
        return room;
    }
    left
}

// The low n bits of a number are put at a place.
pub fn put_bits(out: &mut [u8], at: usize, v: u32, n: usize)
    requires { (at + n ≤ 8 * length out.old) × (at + n < 2 ^ 64) × (n ≤ 20) }
    ensures { out.new ≡ put out.old at v n }
{
    let mut place = at;
    let mut left = n;
    // A `while`, as a turn puts as many bits as stand in one byte.
    while left > 0 {
        let m = bits_in_byte(place, left);
        let i = place / 8;
        out[i] = replaced_bits(out[i], 8 - (place % 8 + m), m, v >> (left - m));
        place += m;
        left -= m;
    }
}

// The first n bytes of a scratch array are copied out; the bytes past them are as they were.
pub fn copy_out(out: &mut [u8], scratch: &[u8], n: usize)
    requires { (n ≤ length scratch.now) × (n ≤ length out.old) }
    ensures { out.new ≡ take n scratch.now ++ drop n out.old }
{
    crate::bytes::put(out, 0, &scratch[..n]);
}

// The header of an image.
ghost use Rattle.std.specs.Prelude.{◌≡◌, ◌++◌, ◌+◌, ◌*◌, ◌<◌, ◌≤◌, length, get_or};
ghost use Rattle.bits.specs.Bytes.{over};
ghost use Rattle.import.specs.InnerHeading.{pair_of, start_of, offsets_of, heading_of};

use bits::bytes::low_byte;

// A number of 16 bits.
fn wide(x: u16) -> usize
    ensures { (result ≡ x) × (result < 65536) }
{
    x as usize
}

// A pair of bytes is put at a place.
fn put_pair(image: &mut [u8], at: usize, x: usize)
    requires { at + 2 ≤ length image.old }
    ensures { image.new ≡ over image.old at (pair_of x) }
{
    image[at] = low_byte(x / 256);
    image[at + 1] = low_byte(x);
}

// Where the k-th stream starts after the header.
fn start_of(ends: &[u16], k: usize) -> usize
    requires { k ≤ length ends.now }
    ensures { (result ≡ start_of ends.now k) × (result ≤ 65536) }
{
    if k == 0 {
        return 0;
    }
    wide(ends[k - 1]) + 1
}

// The offsets of the k-th stream and of the stereo payload after it are put at a place.
fn put_both(image: &mut [u8], at: usize, base: usize, ends: &[u16], k: usize)
    requires { (at + 4 ≤ length image.old) × (base ≤ 65535) × (k < length ends.now) }
    ensures { image.new ≡ over image.old at
        (pair_of (base + start_of ends.now k) ++ pair_of (base + get_or ends.now k 0)) }
{
    put_pair(image, at, base + start_of(ends, k));
    put_pair(image, at + 2, base + wide(ends[k]));
}

// The offsets of all streams but the end of the last payload are put at a place.
fn put_offsets(image: &mut [u8], at: usize, base: usize, ends: &[u16], count: usize)
    requires { (at + 4 * count ≤ length image.old) × (count ≤ 512) × (base ≤ 65535) × (count ≤ length ends.now) }
    ensures { image.new ≡ over image.old at (offsets_of base ends.now count) }
{
    for k in 0..count {
        put_both(image, at + 4 * k, base, ends, k);
    }
}

// The header of an image of so many streams is put at a place.
pub fn put_heading(image: &mut [u8], at: usize, index: u8, ends: &[u16], count: usize)
    requires { (at + 4 * count + 6 ≤ length image.old) × (count ≤ 512) × (count ≤ length ends.now) }
    ensures { image.new ≡ over image.old at (heading_of index ends.now count) }
{
    let base = 4 * count + 6;
    put_pair(image, at, 2 * count);
    put_pair(image, at + 2, index as usize);
    put_offsets(image, at + 4, base, ends, count);
    put_pair(image, at + 4 + 4 * count, base + start_of(ends, count));
}

// Numbers as bytes, and values put into a lent buffer.
ghost use Rattle.std.specs.Prelude.{◌≡◌, ◌+◌, ◌≤◌, length};
ghost use Rattle.bits.specs.Bytes.{byte_of, flag_byte, word_of, over};

// The lowest byte of a number.
pub fn low_byte(x: usize) -> u8
    ensures { result ≡ byte_of x }
{
    (x % 256) as u8
}

// The lowest byte of a number of 32 bits.
pub fn byte_of(x: u32) -> u8
    ensures { result ≡ byte_of x }
{
    (x % 256) as u8
}

// A byte as a number.
pub fn wide(b: u8) -> u32
    ensures { result ≡ b }
{
    b as u32
}

// A flag as a byte.
pub fn flag_byte(on: bool) -> u8
    ensures { result ≡ flag_byte on }
{
    if on {
        return 1;
    }
    0
}

// A number as four bytes, the most significant first.
pub fn word_of(x: usize) -> [u8; 4]
    ensures { result ≡ word_of x }
{
    [
        low_byte(x / 16777216),
        low_byte(x / 65536),
        low_byte(x / 256),
        low_byte(x),
    ]
}

// Values are put at a place; the others are as they were. One by one: the library's copy answers a slice, whose width is a processor's, and
// the archive for C is to be the same for all (`tools/portable`).
pub fn put<T: Copy>(out: &mut [T], at: usize, values: &[T])
    requires { at + length values.now ≤ length out.old }
    ensures { out.new ≡ over out.old at values.now }
{
    for i in 0..values.len() {
        out[at + i] = values[i];
    }
}

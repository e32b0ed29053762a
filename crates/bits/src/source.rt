// What is read: bytes up to a place among their bits.
ghost use Rattle.std.specs.Prelude.{◌*◌, ◌≤◌, length};

// Bytes, and a place among their bits where reading ends.
#[derive(Clone, Copy)]
pub struct Bits<'a> {
    pub bytes: &'a [u8],
    pub end: usize,
    ghost within: { end ≤ 8 * length bytes.now },
}

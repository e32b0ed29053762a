// The scratch array that a payload is spelled into.
ghost use Rattle.std.specs.Prelude.{◌≤◌, []};
ghost use Rattle.bits.specs.Reader.{pick};
ghost use Rattle.stereo_writer.specs.InnerWrote.{Wrote, Room};
ghost use Rattle.stereo_writer.specs.Spelling.{bit_field};

use bits::write::put_bits;

// Bytes, and the place among their bits after what was put.
#[derive(Clone, Copy)]
pub struct Scratch {
    pub bytes: [u8; 1536],
    pub at: usize,
}

impl Scratch {
    // A field of n bits is put.
    pub fn put(&mut self, v: u32, n: usize)
        requires { Room n self.old × (n ≤ 20) }
        ensures { Wrote n self.old (bit_field v n) self.new }
    {
        put_bits(&mut self.bytes, self.at, v, n);
        self.at += n;
    }

    // A field of n bits is put where it is on.
    pub fn put_if(&mut self, on: bool, v: u32, n: usize)
        requires { Room n self.old × (n ≤ 20) }
        ensures { Wrote n self.old (pick on (bit_field v n) []) self.new }
    {
        if !on {
            return;
        }
        self.put(v, n);
    }
}

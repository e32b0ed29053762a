// The words of the tables of stereo payloads, lent from the top to every writer below.
ghost use Rattle.std.specs.Prelude.{◌≡◌};
ghost use Rattle.tables.specs.InnerGenerated.{stereo_words};

// The words: where each table's begin, where the last one's end, and then each word as 32 times its bits, and their count.
#[derive(Clone, Copy)]
pub struct StereoWords {
    pub words: [u32; 253],
    ghost lent: { words ≡ stereo_words },
}

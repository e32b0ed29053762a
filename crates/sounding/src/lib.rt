// The lines of a channel stream that sound, and lines of which none does.
#![tactic(auto)]

ghost use Rattle.std.specs.Prelude.{◌≡◌, pos, replicate};
ghost use Rattle.sounding.specs.Sounding.{sounding};

// How many lines are not 0.
pub fn count_sounding(lines: &[i16]) -> usize
    ensures { result ≡ sounding lines.now }
{
    lines.iter().filter(|line| **line != 0).count()
}

// 1,024 lines of 0.
pub fn no_lines() -> [i16; 1024]
    ensures { result ≡ replicate 1024 (pos 0) }
{
    [0i16; 1024]
}

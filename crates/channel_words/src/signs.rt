// Values from magnitudes: by a sign bit, or less an offset.
ghost use Rattle.std.specs.Prelude.{◌≡◌, ◌≤◌, pos, ◌-ℤ◌};
ghost use Rattle.channel_words.specs.InnerWords.{signs};
ghost use Rattle.channel_words.specs.Tuple.{signed};

// How many sign bits a number has.
pub fn sign_count(d: u32) -> usize
    ensures { (result ≡ signs d) × (result ≤ 1) }
{
    if d == 0 {
        return 0;
    }
    1
}

// A magnitude with a sign bit.
pub fn with_sign(m: u32, sign: u32) -> i16
    requires { m ≤ 8191 }
    ensures { result ≡ signed m sign }
{
    if sign == 1 {
        return -(m as i16);
    }
    m as i16
}

// A number less an offset.
pub fn lowered(d: u32, offset: u32) -> i16
    requires { (d ≤ 16) × (offset ≤ 4) }
    ensures { result ≡ pos d -ℤ pos offset }
{
    d as i16 - offset as i16
}

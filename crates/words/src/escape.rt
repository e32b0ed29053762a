// The escape of book 11.
ghost use Rattle.std.specs.Prelude.{◌≡◌};
ghost use Rattle.bits.specs.InnerAnswers.{answer_of, reads};
ghost use Rattle.words.specs.Escape.{ones, escape};

use bits::fields::placed;
use bits::{Answer, Bits, refused};

// How many ones stand before the first zero; the ninth is refused at once.
fn read_ones(s: &Bits, at: usize) -> Answer<u32>
    ensures { answer_of result ≡ reads (ones 9 0) s.now at }
{
    let mut place = at;
    for n in 0..9 {
        let (one, next) = s.field(place, 1)?;
        if one != 1 {
            return Ok((n, next));
        }
        place = next;
    }
    refused(26, place)
}

// An escape: its magnitude.
pub fn read_escape(s: &Bits, at: usize) -> Answer<u32>
    ensures { answer_of result ≡ reads escape s.now at }
{
    let (ones, after_ones) = placed(read_ones(s, at), at)?;
    let size = ones + 4;
    let (rest, next) = placed(s.field(after_ones, size as usize), at)?;
    Ok(((1u32 << size) + rest, next))
}

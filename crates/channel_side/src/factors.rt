// The scale factors.
ghost use Rattle.std.specs.Prelude.{◌≡◌, ◌≤◌, ◌<◌};
ghost use Rattle.bits.specs.InnerAnswers.{ended_answer, reads};
ghost use Rattle.channel_side.specs.InnerAnswers.{factor_answer, Small};
ghost use Rattle.channel_side.specs.Factors.{band_factor, first_factors};

use bits::{Answer, Bits, Ended, refused};
use tables::ChannelLookups;

// The scale factor of the i-th band, after the last one; the new last.
#[tactic(auto, using(crate::proofs::FactorLaws::entry_below), unfolding(crate::specs::Factors::band_factor, crate::specs::Factors::factor))]
fn read_factor(
    s: &Bits,
    at: usize,
    lookups: &ChannelLookups,
    books: &[u8; 120],
    i: usize,
    last: u32,
    factors: &mut [u8; 120],
) -> Answer<u32>
    requires { (i < 120) × (last ≤ 255) }
    ensures { (factor_answer result factors.new
        ≡ reads (band_factor books.now i (record { last = last; values = factors.old })) s.now at)
        × Small result }
{
    if books[i] == 0 {
        return Ok((last, at));
    }
    let (entry, after_word) = lookups.word(s, at, 0)?;
    let sum = last + entry;
    if sum < 60 || 315 < sum {
        return refused(24, at);
    }
    factors[i] = (sum - 60) as u8;
    Ok((sum - 60, after_word))
}

// The scale factors of the first n bands, from a gain on.
#[tactic(auto, using(crate::proofs::FactorLaws::rest_laws))]
pub fn read_factors(
    s: &Bits,
    at: usize,
    lookups: &ChannelLookups,
    n: usize,
    gain: u32,
    books: &[u8; 120],
    factors: &mut [u8; 120],
) -> Ended
    requires { (n ≤ 120) × (gain ≤ 255) }
    ensures { ended_answer result factors.new ≡ reads (first_factors n gain books.now factors.old) s.now at }
{
    let mut last = gain;
    let mut place = at;
    for i in 0..n {
        let (factor, next) = read_factor(s, place, lookups, books, i, last, factors)?;
        last = factor;
        place = next;
    }
    Ok(place)
}

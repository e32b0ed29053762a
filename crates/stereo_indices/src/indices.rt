// The indices of one kind in one envelope.
ghost use Rattle.std.specs.Prelude.{◌≡◌, eqb};
ghost use Rattle.bits.specs.Reader.{pick};
ghost use Rattle.bits.specs.InnerAnswers.{answer_of, reads};
ghost use Rattle.stereo_indices.specs.Indices.{indices};

use crate::{Kind, kinds, records, steps};
use bits::{Answer, Bits};
use tables::StereoLookups;

// The first of two indices where the time flag is 1, else the second.
pub fn chosen(time: u32, a: i8, b: i8) -> i8
    ensures { result ≡ pick (eqb time 1) a b }
{
    if time == 1 {
        return a;
    }
    b
}

// The indices of a kind, across time from its record or across frequency, zeros above the band count.
pub fn read_indices(
    s: &Bits,
    at: usize,
    kind: Kind,
    mode: u32,
    time: u32,
    before: [i8; 34],
    lookups: &StereoLookups,
) -> Answer<[i8; 34]>
    ensures { answer_of result ≡ reads (indices kind mode time before) s.now at }
{
    let count = kinds::bands(kind, mode);
    let mut indices = records::zeros();
    let mut last = 0i8;
    let mut place = at;
    for i in 0..count {
        let from = chosen(time, before[i], last);
        let (index, next) = steps::read_index(s, place, kind, mode, time, from, lookups)?;
        indices[i] = index;
        last = index;
        place = next;
    }
    Ok((indices, place))
}

// One index: the difference of a word added to another index.
ghost use Rattle.std.specs.Prelude.{◌≡◌, ◌≤◌, pos, nat_abs};
ghost use Rattle.bits.specs.InnerAnswers.{answer_of, reads};
ghost use Rattle.stereo_indices.specs.Difference.{middle, added};
ghost use Rattle.stereo_indices.specs.Indices.{index_from};
ghost use Rattle.stereo_indices.specs.InnerTables.{first_number, difference_number};

use crate::{Kind, kinds};
use bits::{Answer, Bits, refused};
use tables::StereoLookups;

// The number of a kind's first table.
#[tactic(auto, unfolding(crate::specs::InnerTables::first_number))]
fn first_table(kind: Kind, mode: u32) -> usize
    ensures { (result ≡ first_number kind mode) × (12 ≤ result) × (result ≤ 20) }
{
    match kind {
        Kind::Iid if 3 <= mode => 14,
        Kind::Iid => 12,
        Kind::Icc => 16,
        Kind::Ipd => 18,
        Kind::Opd => 20,
    }
}

// The number of the table of a kind's differences.
#[tactic(auto, unfolding(crate::specs::InnerTables::difference_number))]
pub fn difference_table(kind: Kind, mode: u32, time: u32) -> usize
    ensures { (result ≡ difference_number kind mode time) × (12 ≤ result) × (result ≤ 21) }
{
    let first = first_table(kind, mode);
    if time == 1 {
        return first + 1;
    }
    first
}

// The entry that is no difference.
#[tactic(auto, using(crate::proofs::KindLaws::middles), unfolding(crate::specs::Difference::middle))]
pub fn middle(kind: Kind, mode: u32) -> i16
    ensures { result ≡ pos (middle kind mode) }
{
    kinds::by_kind(kind, mode, 30, 14, 7, 0)
}

// The magnitude of an index.
pub fn magnitude(x: i8) -> u32
    ensures { (result ≡ nat_abs x) × (result ≤ 128) }
{
    x.unsigned_abs() as u32
}

// An index with the difference of an entry added.
#[tactic(auto, using(crate::proofs::KindLaws::middles), unfolding(crate::specs::Difference::added))]
fn added(kind: Kind, mode: u32, x: i8, entry: u32) -> i16
    requires { entry ≤ 60 }
    ensures { result ≡ added kind mode x entry }
{
    if kinds::is_phase(kind) {
        return ((magnitude(x) + entry) % 8) as i16;
    }
    let difference = entry as i16 - middle(kind, mode);
    x as i16 + difference
}

// The index that a word's difference leads to from another; outside the range it is refused.
pub fn read_index(
    s: &Bits,
    at: usize,
    kind: Kind,
    mode: u32,
    time: u32,
    from: i8,
    lookups: &StereoLookups,
) -> Answer<i8>
    ensures { answer_of result ≡ reads (index_from kind mode time from) s.now at }
{
    let table = difference_table(kind, mode, time);
    let (entry, next) = lookups.word(s, at, table)?;
    let index = added(kind, mode, from, entry);
    if !kinds::within(kinds::least(kind, mode), kinds::most(kind, mode), index) {
        return refused(32, at);
    }
    Ok((index as i8, next))
}

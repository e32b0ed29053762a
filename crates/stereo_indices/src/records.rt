// A kind's record.
ghost use Rattle.std.specs.Prelude.{◌≡◌};
ghost use Rattle.stereo_indices.specs.Record.{zeros, none, agrees, sound_mode, record_bands, sound_index, sound_from, sound_record};

use crate::{Kind, Record, kinds};

// No indices.
#[tactic(auto, unfolding(crate::specs::Record::zeros))]
pub fn zeros() -> [i8; 34]
    ensures { result ≡ zeros }
{
    [0i8; 34]
}

// A record of none.
#[tactic(auto, unfolding(crate::specs::Record::none))]
pub fn none() -> Record
    ensures { result ≡ none }
{
    let indices = zeros();
    Record { mode: 7, indices }
}

// Whether a record's mode is the mode in force; a record of none agrees with every mode.
#[tactic(auto, unfolding(crate::specs::Record::agrees))]
pub fn agrees(rec: u32, mode: u32) -> bool
    ensures { result ≡ agrees rec mode }
{
    rec == 7 || rec == mode
}

// Whether a mode is one of 0 to 5, or none.
pub fn is_mode(mode: u32) -> bool
    ensures { result ≡ sound_mode mode }
{
    mode <= 5 || mode == 7
}

// How many indices of a record may be other than 0.
fn record_bands(kind: Kind, mode: u32) -> usize
    ensures { result ≡ record_bands kind mode }
{
    if mode == 7 {
        return 0;
    }
    kinds::bands(kind, mode)
}

// Whether the index of a band is in its range, or 0 above the count.
#[tactic(auto, unfolding(crate::specs::Record::sound_index))]
fn sound_index(kind: Kind, mode: u32, i: usize, x: i8) -> bool
    ensures { result ≡ sound_index kind mode i x }
{
    if i < record_bands(kind, mode) {
        return kinds::within(kinds::least(kind, mode), kinds::most(kind, mode), x as i16);
    }
    kinds::within(0, 0, x as i16)
}

// Whether 34 indices are sound. All of them are asked, as a stop at the first that is not takes longer.
fn sound_indices(kind: Kind, mode: u32, indices: [i8; 34]) -> bool
    ensures { result ≡ sound_from kind mode 0 indices }
{
    let mut sound = true;
    for i in 0..34 {
        sound &= sound_index(kind, mode, i, indices[i]);
    }
    sound
}

// Whether a record is sound.
#[tactic(auto, unfolding(crate::specs::Record::sound_record))]
pub fn is_sound(kind: Kind, rec: Record) -> bool
    ensures { result ≡ sound_record kind rec }
{
    is_mode(rec.mode) && sound_indices(kind, rec.mode, rec.indices)
}

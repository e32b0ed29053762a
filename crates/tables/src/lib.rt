// The 22 code tables. Whoever reads words makes the lookups of his half once, and lends them to every reader below; whoever writes them
// makes their words.
#![tactic(auto)]

ghost use Rattle.std.specs.Prelude.{◌≡◌, [], ◌∷◌, ◌≤◌, ◌<◌};
ghost use Rattle.bits.specs.InnerAnswers.{answer_of, reads};
ghost use Rattle.bits.specs.Pieces.{piece};
ghost use Rattle.tables.specs.InnerGenerated.{channel_lookups, stereo_lookups, stereo_words};
ghost use Rattle.tables.specs.GeneratedNames.{table_at};
ghost use Rattle.tables.specs.InnerLent.{part_of, first_bits, lookup_at, Lies};
ghost use Rattle.tables.specs.Tables.{word_of, spell_word};

use bits::{Answer, Bits};
pub use lent_words::StereoWords;
pub use lookups::Lookups;

mod generated_lent;
pub mod lent_words;
pub mod lookups;

// Where the lookup of a table stands among those that are lent, and how many bits choose its first element.
#[derive(Clone, Copy)]
pub struct Lookup {
    pub first: usize,
    pub last: usize,
    pub bits: usize,
}

// A word, as a number of so many bits.
#[derive(Clone, Copy)]
pub struct Word {
    pub code: u32,
    pub len: u8,
}

// The lookups of the tables of channel streams, and of stereo payloads.
pub type ChannelLookups = Lookups<0, 12, 2749>;

pub type StereoLookups = Lookups<12, 22, 1469>;

// The lookups of the tables of channel streams.
pub fn channel_lookups() -> ChannelLookups
    ensures { result.elements ≡ channel_lookups }
{
    Lookups {
        elements: generated_lent::CHANNEL_LOOKUPS,
    }
}

// The lookups of the tables of stereo payloads.
pub fn stereo_lookups() -> StereoLookups
    ensures { result.elements ≡ stereo_lookups }
{
    Lookups {
        elements: generated_lent::STEREO_LOOKUPS,
    }
}

// The words of the tables of stereo payloads.
pub fn stereo_words() -> StereoWords
    ensures { result.words ≡ stereo_words }
{
    StereoWords {
        words: generated_lent::STEREO_WORDS,
    }
}

// Which part of what is lent is a table's.
fn part_of(t: usize) -> usize
    ensures { result ≡ part_of t }
{
    if t < 12 {
        return t;
    }
    t - 12
}

// How many bits choose the first element of a table's lookup.
fn first_bits(t: usize) -> usize
    ensures { result ≡ first_bits t }
{
    if t < 12 {
        return 7;
    }
    6
}

impl<const FIRST: usize, const END: usize, const N: usize> Lookups<FIRST, END, N> {
    // Where the lookup of a table stands, by its number.
    pub fn of(&self, t: usize) -> Lookup
        requires { (FIRST ≤ t) × (t < END) }
        ensures { (result ≡ lookup_at t) × Lies self.now.elements result }
    {
        let part = part_of(t);
        Lookup {
            first: words::lookup::element(&self.elements, part),
            last: words::lookup::element(&self.elements, part + 1),
            bits: first_bits(t),
        }
    }

    // The entry of the word at a place, of a table by its number.
    pub fn word(&self, s: &Bits, at: usize, t: usize) -> Answer<u32>
        requires { (FIRST ≤ t) × (t < END) }
        ensures { answer_of result ≡ reads (word_of (table_at t)) s.now at }
    {
        let lookup = self.of(t);
        let elements = &self.elements[..];
        words::lookup::read_word(s, at, &elements[lookup.first..lookup.last], lookup.bits)
    }
}

impl StereoWords {
    // The word of an entry of a stereo table, by the table's number; an entry that there is not has no bits.
    pub fn word(&self, t: usize, entry: usize) -> Word
        requires { (12 ≤ t) × (t < 22) }
        ensures { (piece result.code result.len ∷ [] ≡ spell_word (table_at t) entry) × (result.len ≤ 20) }
    {
        let first = self.words[t - 12] as usize;
        let last = self.words[t - 11] as usize;
        if last - first <= entry {
            return Word { code: 0, len: 0 };
        }
        let word = self.words[first + entry];
        Word {
            code: word / 32,
            len: (word % 32) as u8,
        }
    }
}

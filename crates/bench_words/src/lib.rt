// What the bench times word by word: the words of a list, each read where it stands, by a scan of its table or by lookup.
#![tactic(auto)]

ghost use Rattle.std.specs.Prelude.{◌≡◌, ◌*◌, ◌<◌, leb};
ghost use Rattle.bits.specs.InnerAnswers.{answer_of, reads};
ghost use Rattle.tables.specs.GeneratedNames.{table_at};
ghost use Rattle.tables.specs.GeneratedWords.{all_codes, all_lens};
ghost use Rattle.tables.specs.Tables.{word_of};
ghost use Rattle.bench_words.specs.InnerTable.{places, Scanned};
ghost use Rattle.bench_words.specs.InnerSums.{added, with_word, words_sum};

use bits::{Answer, Bits};
use tables::{ChannelLookups, StereoLookups};

mod generated_words;
mod scan;

// The words of all tables.
fn codes() -> [u32; 1604]
    ensures { result ≡ all_codes }
{
    generated_words::CODES
}

// The lengths of all words.
fn lens() -> [u8; 1604]
    ensures { result ≡ all_lens }
{
    generated_words::LENS
}

// Where each table starts, and where the last ends.
fn places() -> [usize; 23]
    ensures { result ≡ places }
{
    generated_words::PLACES
}

// A way to read the word at a place.
trait ReadsWords {
    // The entry of the word, of a table by its number.
    fn word(&self, s: &Bits, at: usize, t: usize) -> Answer<u32>
        requires { t < 22 }
        ensures { answer_of result ≡ reads (word_of (table_at t)) s.now at };
}

// By a scan of the table, whose place in the lists of all words and their lengths is known.
#[derive(Clone, Copy)]
struct ByScan {
    codes: [u32; 1604],
    lens: [u8; 1604],
    places: [usize; 23],
    ghost all: { Scanned codes lens places },
}

impl ReadsWords for ByScan {
    fn word(&self, s: &Bits, at: usize, t: usize) -> Answer<u32> {
        let first = self.places[t];
        let last = self.places[t + 1];
        scan::read_word(s, at, &self.codes[first..last], &self.lens[first..last])
    }
}

// By lookup.
#[derive(Clone, Copy)]
struct ByLookup {
    channel: ChannelLookups,
    stereo: StereoLookups,
}

impl ReadsWords for ByLookup {
    fn word(&self, s: &Bits, at: usize, t: usize) -> Answer<u32> {
        if t < 12 {
            return self.channel.word(s, at, t);
        }
        self.stereo.word(s, at, t)
    }
}

// A sum with a word's entry and the place after it.
fn added(sum: u32, word: Answer<u32>) -> u32
    ensures { result ≡ added sum (answer_of word) }
{
    match word {
        Ok((entry, next)) => (sum % 16777216 + entry % 65536 + (next % 65536) as u32) % 16777216,
        Err(_) => sum,
    }
}

// A sum with the word at a place, of a table if there is one of that number.
fn with_word<R: ReadsWords>(reader: &R, sum: u32, s: &Bits, at: usize, t: usize) -> u32
    ensures { result ≡ with_word s.now.bytes.now s.now.end sum at t }
{
    if 22 <= t {
        return sum;
    }
    added(sum, reader.word(s, at, t))
}

// Whether an end lies in a slice.
fn is_inside(size: usize, end: u32) -> bool
    ensures { result ≡ leb end (8 * size) }
{
    end as usize <= 8 * size.min(536870912)
}

// The words of a list, each a place and a table's number: the sum of their entries and of the places after them.
fn words_sum<R: ReadsWords>(reader: &R, bytes: &[u8], end: u32, words: &[u32]) -> u32
    ensures { result ≡ words_sum bytes.now end words.now }
{
    if !is_inside(bytes.len(), end) {
        return 0;
    }
    let s = Bits {
        bytes,
        end: end as usize,
    };
    let mut sum = 0;
    for k in 0..words.len() / 2 {
        let at = words[2 * k] as usize;
        let t = words[2 * k + 1] as usize;
        sum = with_word(reader, sum, &s, at, t);
    }
    sum
}

// The sum over the words of a list, by a scan.
pub fn oarcradler_bench_scan(bytes: &[u8], end: u32, words: &[u32]) -> u32
    ensures { result ≡ words_sum bytes.now end words.now }
{
    let reader = ByScan {
        codes: codes(),
        lens: lens(),
        places: places(),
    };
    words_sum(&reader, bytes, end, words)
}

// The sum over the words of a list, by lookup.
pub fn oarcradler_bench_lookup(bytes: &[u8], end: u32, words: &[u32]) -> u32
    ensures { result ≡ words_sum bytes.now end words.now }
{
    let reader = ByLookup {
        channel: tables::channel_lookups(),
        stereo: tables::stereo_lookups(),
    };
    words_sum(&reader, bytes, end, words)
}

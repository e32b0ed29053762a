// The old reading of a word: a scan of its table, entry by entry, which the bench times beside the lookup.
ghost use Rattle.std.specs.Prelude.{◌≡◌, ◌<◌, ◌≤◌, ◌+◌, ◌-◌, ◌^◌, min};
ghost use Rattle.bits.specs.Bits.{bits_from};
ghost use Rattle.bits.specs.InnerAnswers.{answer_of, reads};
ghost use Rattle.words.specs.Words.{word};
ghost use Rattle.bench_words.specs.InnerComparison.{compared};
ghost use Rattle.bench_words.specs.InnerTable.{Usable};

use bits::{Answer, Bits, bits_at, refused};

// What a word is to the first bits at a place: it is their prefix, they are its proper prefix, or neither.
#[derive(Clone, Copy)]
enum Comparison {
    Fits,
    Cut,
    Neither,
}

// The first bits at a place: how many, at most 20, and their number.
#[derive(Clone, Copy)]
struct Window {
    count: usize,
    value: u32,
}

// The bits from a place up to the end, the first 20 of them at most.
fn first_bits(s: &Bits, at: usize) -> Window
    ensures { (result.count ≡ min 20 (s.now.end - at)) × (result.value ≡ bits_from s.now.bytes.now at result.count)
        × (at + result.count < 2 ^ 64) }
{
    let count = s.end.saturating_sub(at).min(20);
    Window {
        count,
        value: bits_at(s.bytes, at, count),
    }
}

// A word of l bits, held to the first bits.
fn compare(w: Window, c: u32, l: u8) -> Comparison
    requires { (w.count ≤ 20) × (l ≤ 20) }
    ensures { result ≡ compared w.value w.count c l }
{
    let m = w.count;
    let l = l as usize;
    if l <= m {
        if w.value >> (m - l) == c {
            return Comparison::Fits;
        }
        return Comparison::Neither;
    }
    if w.value == c >> (l - m) {
        return Comparison::Cut;
    }
    Comparison::Neither
}

// The entry whose word stands at a place; 10 where the bits up to the end are the start of some word, 11 where they are of none.
pub fn read_word(s: &Bits, at: usize, codes: &[u32], lens: &[u8]) -> Answer<u32>
    requires { Usable codes.now lens.now }
    ensures { answer_of result ≡ reads (word codes.now lens.now) s.now at }
{
    let w = first_bits(s, at);
    let mut short = false;
    for i in 0..lens.len() {
        match compare(w, codes[i], lens[i]) {
            Comparison::Fits => return Ok((i as u32, at + lens[i] as usize)),
            Comparison::Cut => {
                short = true;
            }
            Comparison::Neither => {}
        }
    }
    if short {
        return refused(10, at);
    }
    refused(11, at)
}

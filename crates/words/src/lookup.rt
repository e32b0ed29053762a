// Words by lookup: the first bits at a place lead to an entry and the length of its word.
ghost use Rattle.std.specs.Prelude.{◌≡◌, ◌*◌, ◌<◌, ◌≤◌, ◌-◌, ◌^◌, length, get_or};
ghost use Rattle.bits.specs.InnerAnswers.{answer_of, reads};
ghost use Rattle.words.specs.InnerLookup.{next_element, leads_to, leaf_of, answered, looked};

use bits::{Answer, Bits, refused};

// An element of a lookup.
pub fn element(look: &[u16], i: usize) -> usize
    requires { i < length look.now }
    ensures { (result ≡ get_or look.now i 0) × (result < 65536) }
{
    look[i] as usize
}

// The element that a link leads to, of a window of which d bits are behind.
fn next_element(look: &[u16], w: u32, d: usize, link: usize) -> usize
    requires { (d ≤ 24) × (16384 ≤ link) × (link < 65536) }
    ensures { (result ≡ next_element look.now w d link) × (result < 65536) }
{
    let further = link / 2048 - 8;
    if d + further > 24 {
        return 0;
    }
    let i = link % 2048 + ((w >> (24 - (d + further))) % (1u32 << further)) as usize;
    if i < look.len() {
        return element(look, i);
    }
    0
}

// The element that a link leads to, over one more link where it is one.
fn deeper(look: &[u16], w: u32, d: usize, link: usize) -> usize
    requires { (d ≤ 24) × (16384 ≤ link) × (link < 65536) }
    ensures { (result ≡ leads_to 2 look.now w d link) × (result < 65536) }
{
    let next = next_element(look, w, d, link);
    if next < 16384 {
        return next;
    }
    let behind = d + (link / 2048 - 8);
    if behind > 24 {
        return 0;
    }
    next_element(look, w, behind, next)
}

// The leaf that a window leads to, in a lookup whose first elements stand for the first k bits.
pub fn leaf(look: &[u16], k: usize, w: u32) -> usize
    requires { (k ≤ 20) × (2 ^ k ≤ length look.now) × (w < 2 ^ 24) }
    ensures { (result ≡ leaf_of look.now k w) × (result < 65536) }
{
    let first = element(look, (w >> (24 - k)) as usize);
    if first < 16384 {
        return first;
    }
    deeper(look, w, k, first)
}

// The answer that a leaf stands for: its entry; 11 where it is of no word; 10 where its length ends past the end.
pub fn answer(leaf: usize, at: usize, end: usize) -> Answer<u32>
    requires { leaf < 65536 }
    ensures { answer_of result ≡ answered leaf at (end - at) }
{
    let size = leaf % 32;
    if end.saturating_sub(at) < size {
        return refused(10, at);
    }
    let entry = leaf / 32;
    if entry == 511 {
        return refused(11, at);
    }
    Ok((entry as u32, at + size))
}

// The entry whose word stands at a place; 10 where the bits up to the end are the start of some word, 11 where they are of none.
pub fn read_word(s: &Bits, at: usize, look: &[u16], k: usize) -> Answer<u32>
    requires { (k ≤ 20) × (2 ^ k ≤ length look.now) }
    ensures { answer_of result ≡ reads (looked look.now k) s.now at }
{
    let w = s.window(at);
    answer(leaf(look, k, w), at, s.end)
}

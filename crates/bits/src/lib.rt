// Bits of a byte slice, most significant first: fields read, and pieces of bits put.
#![tactic(auto)]

ghost use Rattle.std.specs.Prelude.{◌≡◌, ◌<◌, ◌≤◌, get_or, Err};
ghost use Rattle.bits.specs.Bits.{bits_from};

pub mod bytes;
pub mod calls;
pub mod fields;
pub mod source;
pub mod window;
pub mod write;

pub use source::Bits;

// A refusal: its number, and the place of the field judged. The number is the rules' own name of it (`docs/RULES.md`), which C and every
// program give; an enum of as many variants would say no more, and be turned into it at each of these edges.
#[derive(Clone, Copy)]
pub struct Refusal {
    pub number: u8,
    pub place: usize,
}

// What a reading answers: a value and the next place, or a refusal.
pub type Answer<T> = Result<(T, usize), Refusal>;

// How a reading into a lent array ends: the next place, or a refusal.
pub type Ended = Result<usize, Refusal>;

// A refusal of whatever was asked for.
pub fn refused<T>(number: u8, place: usize) -> Result<T, Refusal>
    ensures { result ≡ Err (record { number = number; place = place }) }
{
    Err(Refusal { number, place })
}

// A byte, or 0 past the end.
fn byte(s: &[u8], i: usize) -> u64
    ensures { (result ≡ get_or s.now i 0) × (result < 256) }
{
    if i < s.len() {
        return s[i] as u64;
    }
    0
}

// The number that n bits from a place are, by four bytes at once.
pub fn bits_at(s: &[u8], at: usize, n: usize) -> u32
    requires { n ≤ 24 }
    ensures { result ≡ bits_from s.now at n }
{
    let i = at / 8;
    let r = at % 8;
    let w = ((byte(s, i) * 256 + byte(s, i + 1)) * 256 + byte(s, i + 2)) * 256 + byte(s, i + 3);
    let m = 1u64 << n;
    ((w >> (32 - (r + n))) % m) as u32
}

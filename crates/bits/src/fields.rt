// Fields: a run of bits that has to lie wholly before the end.
ghost use Rattle.std.specs.Prelude.{◌≡◌, ◌≤◌, ◌-◌, leb};
ghost use Rattle.bits.specs.Reader.{tested};
ghost use Rattle.bits.specs.Inside.{renumbered};
ghost use Rattle.bits.specs.Places.{placed};
ghost use Rattle.bits.specs.Field.{field, zero_bit};
ghost use Rattle.bits.specs.InnerAnswers.{answer_of, reads};

use crate::{Answer, Bits, bits_at, refused};

impl Bits<'_> {
    // How many bits are left before the end.
    pub fn left(&self, at: usize) -> usize
        ensures { result ≡ self.now.end - at }
    {
        self.end.saturating_sub(at)
    }

    // A field of n bits that has to lie wholly before the end.
    pub fn field(&self, at: usize, n: usize) -> Answer<u32>
        requires { n ≤ 20 }
        ensures { answer_of result ≡ reads (field n) self.now at }
    {
        if self.end < at {
            return refused(10, at);
        }
        let left = self.end - at;
        if left < n {
            return refused(10, at);
        }
        Ok((bits_at(self.bytes, at, n), at + n))
    }

    // A bit that has to be 0, or is refused.
    #[tactic(auto, unfolding(crate::specs::Field::zero_bit))]
    pub fn unset_bit(&self, at: usize, number: u8) -> Answer<u32>
        ensures { answer_of result ≡ reads (zero_bit number) self.now at }
    {
        let (bit, next) = self.field(at, 1)?;
        if bit != 0 {
            return refused(number, at);
        }
        Ok((bit, next))
    }
}

// A field that began at a place, refused where it is above a number.
pub fn at_most(f: Answer<u32>, most: u32, number: u8, at: usize) -> Answer<u32>
    ensures { answer_of result ≡ tested (answer_of f) number (λ v. leb v most) at }
{
    let (value, next) = f?;
    if most < value {
        return refused(number, at);
    }
    Ok((value, next))
}

// An answer, whose refusal is moved to the place where its reading began.
pub fn placed<T>(answer: Answer<T>, at: usize) -> Answer<T>
    ensures { answer_of result ≡ placed (answer_of answer) at }
{
    match answer {
        Ok(read) => Ok(read),
        Err(refusal) => refused(refusal.number, at),
    }
}

// An answer, whose refusal 10 has another number in its place.
pub fn renumbered<T>(answer: Answer<T>, short: u8) -> Answer<T>
    ensures { answer_of result ≡ renumbered short (answer_of answer) }
{
    match answer {
        Ok(read) => Ok(read),
        Err(refusal) if refusal.number == 10 => refused(short, refusal.place),
        Err(refusal) => Err(refusal),
    }
}

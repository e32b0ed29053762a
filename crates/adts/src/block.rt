// The raw block of a frame.
ghost use Rattle.std.specs.Prelude.{◌≡◌, pos, replicate};
ghost use Rattle.bits.specs.Field.{field};
ghost use Rattle.bits.specs.InnerAnswers.{answer_of, reads};
ghost use Rattle.channel.specs.InnerAnswers.{HoldsStream};
ghost use Rattle.adts.specs.Block.{element, single_channel, raw_block};
ghost use Rattle.adts.specs.Frame.{stream_in};
ghost use Rattle.adts.specs.InnerAnswers.{Closes, HoldsElement, HoldsHead};

use bits::{Answer, Bits, Ended, refused};
use channel::stream::{Head, read_from};

// The id of an element, which has to be a number, or is refused.
#[tactic(auto, unfolding(crate::specs::Block::element))]
fn read_element(s: &Bits, at: usize, id: u32) -> Answer<u32>
    ensures { answer_of result ≡ reads (element id) s.now at }
{
    let (found, next) = s.field(at, 3)?;
    if found != id {
        return refused(53, at);
    }
    Ok((found, next))
}

// The tag of an element, which is free.
fn read_tag(s: &Bits, at: usize) -> Answer<u32>
    ensures { answer_of result ≡ reads (field 4) s.now at }
{
    s.field(at, 4)
}

// The single channel element after a header, into arrays of zeros: its head, and where its stream ends.
#[tactic(auto, using(crate::proofs::BlockLaws::element_laws))]
fn read_channel_element(
    s: &Bits,
    index: u8,
    books: &mut [u8; 120],
    factors: &mut [u8; 120],
    lines: &mut [i16; 1024],
) -> Answer<Head>
    requires { (books.old ≡ replicate 120 0) × (factors.old ≡ replicate 120 0) × (lines.old ≡ replicate 1024 (pos 0)) }
    ensures { HoldsElement result books.new factors.new lines.new (reads (single_channel index) s.now 56) }
{
    let (_, after_id) = read_element(s, 56, 0)?;
    let (_, first) = read_tag(s, after_id)?;
    read_from(s, first, index, books, factors, lines)
}

// The end element, with at most 7 bits after it.
#[tactic(auto, unfolding(bits::specs::Payload::ended))]
fn read_end(s: &Bits, at: usize) -> Ended
    ensures { Closes result s.now at }
{
    let (_, next) = read_element(s, at, 7)?;
    if 7 < s.left(next) {
        return refused(12, next);
    }
    Ok(next)
}

// The raw block after a header, into arrays of zeros: its head, and how many bits its stream used.
#[tactic(auto, using(crate::proofs::BlockLaws::block_laws))]
pub fn read_block(
    s: &Bits,
    index: u8,
    books: &mut [u8; 120],
    factors: &mut [u8; 120],
    lines: &mut [i16; 1024],
) -> Answer<Head>
    requires { (books.old ≡ replicate 120 0) × (factors.old ≡ replicate 120 0) × (lines.old ≡ replicate 1024 (pos 0)) }
    ensures { HoldsStream result books.new factors.new lines.new (stream_in (reads (raw_block index) s.now 56)) }
{
    let (head, last) = read_channel_element(s, index, books, factors, lines)?;
    read_end(s, last)?;
    Ok((head, last.saturating_sub(63)))
}

// The raw block after a header: its head, and how many bits its stream used.
#[tactic(auto, using(crate::proofs::BlockLaws::lone_laws))]
pub fn read_lone_block(s: &Bits, index: u8) -> Answer<Head>
    ensures { HoldsHead result (stream_in (reads (raw_block index) s.now 56)) }
{
    let mut books = [0u8; 120];
    let mut factors = [0u8; 120];
    let mut lines = [0i16; 1024];
    read_block(s, index, &mut books, &mut factors, &mut lines)
}

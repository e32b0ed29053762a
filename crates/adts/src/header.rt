// The header of a frame.
ghost use Rattle.std.specs.Prelude.{◌≡◌, ◌<◌, ◌≤◌, length};
ghost use Rattle.adts.specs.Frame.{fitting, frame_header};
ghost use Rattle.adts.specs.InnerHeader.{index_in, kept, header_refusal};
ghost use Rattle.adts.specs.InnerAnswers.{header_answer, Lies};

use bits::calls::is_known_index;
use bits::{Answer, bits_at, refused};

// What is kept of a header: the sampling index, and the frame's length in bytes, the header's 7 among them.
#[derive(Clone, Copy)]
pub struct Header {
    pub index: u8,
    pub length: usize,
}

// The sampling index of a whole header.
#[tactic(auto, using(crate::proofs::HeaderLaws::field_laws))]
fn index_in(s: &[u8]) -> u8
    ensures { result ≡ index_in s.now }
{
    bits_at(s, 18, 4) as u8
}

// The first fault of the fields of a whole header: a refusal's number, or 0.
#[tactic(auto, unfolding(crate::specs::InnerHeader::header_refusal))]
fn header_refusal(s: &[u8]) -> u8
    ensures { result ≡ header_refusal s.now }
{
    if bits_at(s, 0, 12) != 4095 {
        return 50;
    }
    let layer = bits_at(s, 13, 2);
    let protection_absent = bits_at(s, 15, 1);
    let profile = bits_at(s, 16, 2);
    if layer != 0 || protection_absent != 1 || profile != 1 {
        return 51;
    }
    let known = is_known_index(index_in(s) as usize);
    let channels = bits_at(s, 23, 3);
    let blocks = bits_at(s, 54, 2);
    if !known || channels != 1 || blocks != 0 {
        return 51;
    }
    0
}

// A whole header, whose frame's length in bytes has to be 7 at least, and no more than there are, or 52.
#[tactic(auto, using(crate::proofs::HeaderLaws::field_laws), unfolding(crate::specs::Frame::fitting))]
fn judge_length(s: &[u8]) -> Answer<Header>
    ensures result_value { header_answer result ≡ fitting (length s.now) (kept s.now) }
    ensures length_in_bounds { Lies s.now result }
{
    let length = bits_at(s, 30, 13) as usize;
    if length < 7 || s.len() < length {
        return refused(52, 0);
    }
    let index = index_in(s);
    Ok((Header { index, length }, 56))
}

// The header of the frame at the front of a slice.
#[tactic(auto, using(crate::proofs::HeaderLaws::header_laws))]
pub fn read_header(s: &[u8]) -> Answer<Header>
    ensures result_value { header_answer result ≡ frame_header s.now }
    ensures length_in_bounds { Lies s.now result }
{
    if s.len() < 7 {
        return refused(10, 0);
    }
    let number = header_refusal(s);
    if number != 0 {
        return refused(number, 0);
    }
    judge_length(s)
}

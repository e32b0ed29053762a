// The frame: its class, the envelopes and their borders.
ghost use Rattle.std.specs.Prelude.{◌≡◌, ◌≤◌, ◌<◌, IfOk};
ghost use Rattle.bits.specs.InnerAnswers.{answer_of, reads};
ghost use Rattle.stereo.specs.Frame.{envelope_count, no_borders, borders_of, borders, no_frame, frame};

use crate::Frame;
use bits::{Answer, Bits};

// The number of envelopes.
#[tactic(auto, unfolding(crate::specs::Frame::envelope_count))]
fn envelope_count(class: u32, i: u32) -> usize
    requires { i < 4 }
    ensures { (result ≡ envelope_count class i) × (result ≤ 4) }
{
    if class == 1 {
        return i as usize + 1;
    }
    if i == 3 {
        return 4;
    }
    i as usize
}

// No borders.
#[tactic(auto, unfolding(crate::specs::Frame::no_borders))]
fn no_borders() -> [u32; 4]
    ensures { result ≡ no_borders }
{
    [0u32; 4]
}

// A border for each of n envelopes.
fn read_borders_of(s: &Bits, at: usize, n: usize) -> Answer<[u32; 4]>
    requires { n ≤ 4 }
    ensures { answer_of result ≡ reads (borders_of n) s.now at }
{
    let mut borders = no_borders();
    let mut place = at;
    for k in 0..n {
        let (border, next) = s.field(place, 5)?;
        borders[k] = border;
        place = next;
    }
    Ok((borders, place))
}

// The borders, where they are variable.
#[tactic(auto, unfolding(crate::specs::Frame::borders))]
fn read_borders(s: &Bits, at: usize, class: u32, n: usize) -> Answer<[u32; 4]>
    requires { n ≤ 4 }
    ensures { answer_of result ≡ reads (borders class n) s.now at }
{
    if class != 1 {
        return Ok((no_borders(), at));
    }
    read_borders_of(s, at, n)
}

// No frame.
#[tactic(auto, unfolding(crate::specs::Frame::no_frame))]
pub fn no_frame() -> Frame
    ensures { result ≡ no_frame }
{
    let borders = no_borders();
    Frame {
        class: 0,
        envelopes: 0,
        borders,
    }
}

// The frame: at most 4 envelopes.
#[tactic(auto, unfolding(crate::specs::Frame::frame))]
pub fn read_frame(s: &Bits, at: usize) -> Answer<Frame>
    ensures { (answer_of result ≡ reads frame s.now at) × IfOk result (λ read. read.0.envelopes ≤ 4) }
{
    let (class, after_class) = s.field(at, 1)?;
    let (index, after_index) = s.field(after_class, 2)?;
    let envelopes = envelope_count(class, index);
    let (borders, next) = read_borders(s, after_index, class, envelopes)?;
    let frame = Frame {
        class,
        envelopes,
        borders,
    };
    Ok((frame, next))
}

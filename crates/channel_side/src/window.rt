// Window information.
ghost use Rattle.std.specs.Prelude.{◌≡◌, ◌<◌};
ghost use Rattle.bits.specs.InnerAnswers.{answer_of, reads};
ghost use Rattle.channel_side.specs.InnerAnswers.{Known, Bounded};
ghost use Rattle.channel_side.specs.Window.{window_sequence, max_sfb_of, grouping_of, window_bands, window};

use bits::fields::at_most;
use bits::{Answer, Bits};
use channel_bands::bands::band_count;

// Window sequence and shape, max_sfb, and the grouping bits, which are 0 where windows are long.
#[derive(Clone, Copy)]
pub struct Window {
    pub sequence: u8,
    pub shape: u8,
    pub max_sfb: u8,
    pub grouping: u8,
}

// The reserved bit, which has to be 0, and the window sequence.
#[tactic(auto, unfolding(crate::specs::Window::window_sequence))]
fn read_sequence(s: &Bits, at: usize) -> Answer<u32>
    ensures { answer_of result ≡ reads window_sequence s.now at }
{
    let (_, after_reserved) = s.unset_bit(at, 13)?;
    s.field(after_reserved, 2)
}

// max_sfb: 4 bits for short windows, else 6.
#[tactic(auto, unfolding(crate::specs::Window::max_sfb_of))]
fn read_max_sfb(s: &Bits, at: usize, index: u8, short: bool) -> Answer<u32>
    ensures { answer_of result ≡ reads (max_sfb_of index short) s.now at }
{
    let most = band_count(index, short);
    if short {
        return at_most(s.field(at, 4), most, 21, at);
    }
    at_most(s.field(at, 6), most, 21, at)
}

// The grouping bits of short windows, or the prediction flag, which has to be 0.
#[tactic(auto, unfolding(crate::specs::Window::grouping_of))]
fn read_grouping(s: &Bits, at: usize, short: bool) -> Answer<u32>
    ensures { answer_of result ≡ reads (grouping_of short) s.now at }
{
    if short {
        return s.field(at, 7);
    }
    s.unset_bit(at, 20)
}

// max_sfb and grouping, of windows of a sequence and a shape.
#[tactic(auto, using(crate::proofs::WindowLaws::bounds), unfolding(crate::specs::Window::window_bands))]
fn read_window_bands(s: &Bits, at: usize, index: u8, sequence: u32, shape: u32) -> Answer<Window>
    requires { (sequence < 4) × (shape < 2) }
    ensures { (answer_of result ≡ reads (window_bands index sequence shape) s.now at) × Known (Bounded index) result }
{
    let short = sequence == 2;
    let (max_sfb, after_max_sfb) = read_max_sfb(s, at, index, short)?;
    let (grouping, after_grouping) = read_grouping(s, after_max_sfb, short)?;
    let window = Window {
        sequence: sequence as u8,
        shape: shape as u8,
        max_sfb: max_sfb as u8,
        grouping: grouping as u8,
    };
    Ok((window, after_grouping))
}

// The window information: max_sfb is no more than the number of bands.
#[tactic(auto, using(crate::proofs::WindowLaws::bounds), unfolding(crate::specs::Window::window))]
pub fn read_window(s: &Bits, at: usize, index: u8) -> Answer<Window>
    ensures { (answer_of result ≡ reads (window index) s.now at) × Known (Bounded index) result }
{
    let (sequence, after_sequence) = read_sequence(s, at)?;
    let (shape, after_shape) = s.field(after_sequence, 1)?;
    read_window_bands(s, after_shape, index, sequence, shape)
}

// The pulses.
ghost use Rattle.std.specs.Prelude.{◌≡◌, ◌≤◌, ◌<◌, false, get_or, set, pos};
ghost use Rattle.bits.specs.InnerAnswers.{answer_of, ended_answer, reads};
ghost use Rattle.channel_bands.specs.Bands.{bands};
ghost use Rattle.channel_side.specs.InnerAnswers.{Known, Within, Applicable, Always};
ghost use Rattle.channel_side.specs.Pulses.{none_laid, all_laid, pulse, each_pulse, start_band, pulse_data, no_pulses, pulses};
ghost use Rattle.channel_side.specs.Pulses.{pulsed, changed, apply_pulses};

use bits::{Answer, Bits, Ended, refused};
use channel_bands::bands::band_count;

// The pulses of a stream: how many there are, and in four places the line, the amplitude and the place of each. Side by side, as the
// definition `pulses` is of this record.
#[derive(Clone, Copy)]
pub struct Pulses {
    pub count: usize,
    pub lines: [u32; 4],
    pub amplitudes: [u8; 4],
    pub places: [usize; 4],
}

// Pulses so far: the line that the next offset counts from; and in four places the line, the amplitude and the place of each.
#[derive(Clone, Copy)]
pub struct Laid {
    pub last: u32,
    pub lines: [u32; 4],
    pub amplitudes: [u8; 4],
    pub places: [usize; 4],
}

// No pulse so far: the first offset counts from a line.
fn none_laid(line: u32) -> Laid
    ensures { result ≡ none_laid line }
{
    Laid {
        last: line,
        lines: [0u32; 4],
        amplitudes: [0u8; 4],
        places: [0usize; 4],
    }
}

// The k-th pulse is laid: its line, its amplitude and its place.
fn lay(laid: Laid, k: usize, line: u32, amplitude: u8, place: usize) -> Laid
    requires { k < 4 }
    ensures { result ≡ record {
      last = line;
      lines = set laid.lines k line;
      amplitudes = set laid.amplitudes k amplitude;
      places = set laid.places k place;
    } }
{
    let mut laid = laid;
    laid.last = line;
    laid.lines[k] = line;
    laid.amplitudes[k] = amplitude;
    laid.places[k] = place;
    laid
}

// The k-th pulse, whose offset counts from the last line.
#[tactic(auto, using(bits::proofs::Taken::field_below), unfolding(crate::specs::Pulses::pulse, bits::specs::Places::here))]
fn read_pulse(s: &Bits, at: usize, k: usize, laid: Laid) -> Answer<Laid>
    requires { (k < 4) × Within laid }
    ensures { (answer_of result ≡ reads (pulse k laid) s.now at) × Known Within result }
{
    let (offset, after_offset) = s.field(at, 5)?;
    let line = laid.last + offset;
    if 1023 < line {
        return refused(25, at);
    }
    let (amplitude, next) = s.field(after_offset, 4)?;
    let laid = lay(laid, k, line, amplitude as u8, at);
    Ok((laid, next))
}

// No pulses.
fn no_pulses() -> Pulses
    ensures { result ≡ no_pulses }
{
    Pulses {
        count: 0,
        lines: [0u32; 4],
        amplitudes: [0u8; 4],
        places: [0usize; 4],
    }
}

// So many pulses, as they are laid.
fn all_laid(count: usize, laid: Laid) -> Pulses
    ensures { result ≡ all_laid count laid }
{
    let lines = laid.lines;
    let amplitudes = laid.amplitudes;
    let places = laid.places;
    Pulses {
        count,
        lines,
        amplitudes,
        places,
    }
}

// n pulses, whose offsets count from a line.
#[tactic(auto, using(crate::proofs::PulseLaws::rest_laws))]
fn read_each(s: &Bits, at: usize, n: usize, line: u32) -> Answer<Pulses>
    requires { (n ≤ 4) × (line ≤ 1024) }
    ensures { (answer_of result ≡ reads (each_pulse n line) s.now at) × Known Applicable result }
{
    let mut laid = none_laid(line);
    let mut place = at;
    for k in 0..n {
        let (more, next) = read_pulse(s, place, k, laid)?;
        laid = more;
        place = next;
    }
    Ok((all_laid(n, laid), place))
}

// The start band, which an index has to have for long windows.
#[tactic(auto, unfolding(crate::specs::Pulses::start_band))]
fn read_start(s: &Bits, at: usize, index: u8) -> Answer<u32>
    ensures { answer_of result ≡ reads (start_band index) s.now at }
{
    let (band, next) = s.field(at, 6)?;
    if band_count(index, false) <= band {
        return refused(25, at);
    }
    Ok((band, next))
}

// The pulses that follow the flag, with the bands of long windows.
#[tactic(auto, using(crate::proofs::PulseLaws::data_laws), unfolding(crate::specs::Pulses::pulse_data))]
fn read_data(s: &Bits, at: usize, index: u8, edges: &[usize]) -> Answer<Pulses>
    requires { edges.now ≡ bands index false }
    ensures { (answer_of result ≡ reads (pulse_data index) s.now at) × Known Applicable result }
{
    let (less, after_count) = s.field(at, 2)?;
    let (start, after_start) = read_start(s, after_count, index)?;
    let line = edges[start as usize] as u32;
    read_each(s, after_start, less as usize + 1, line)
}

// The pulse flag and the pulses, with the bands of the windows.
#[tactic(auto, using(crate::proofs::PulseLaws::low_zeros, crate::proofs::PulseLaws::no_flag), unfolding(crate::specs::Pulses::pulses))]
pub fn read_pulses(s: &Bits, at: usize, index: u8, short: bool, edges: &[usize]) -> Answer<Pulses>
    requires { edges.now ≡ bands index short }
    ensures { (answer_of result ≡ reads (pulses index short) s.now at) × Known Applicable result }
{
    let (flag, after_flag) = s.field(at, 1)?;
    if flag != 1 {
        return Ok((no_pulses(), after_flag));
    }
    if short {
        return refused(25, at);
    }
    read_data(s, after_flag, index, edges)
}

// A line after a pulse.
fn pulsed_line(line: i16, amplitude: u8) -> i32
    ensures { result ≡ pulsed line amplitude }
{
    if 0 < line {
        return line as i32 + amplitude as i32;
    }
    line as i32 - amplitude as i32
}

// A pulse on a line: refused at its place where the magnitude passes 8191.
#[tactic(auto, unfolding(crate::specs::Pulses::changed))]
fn apply_pulse(
    at: usize,
    line: usize,
    amplitude: u8,
    place: usize,
    lines: &mut [i16; 1024],
) -> Ended
    requires { line < 1024 }
    ensures { ended_answer result lines.new
        ≡ changed (pulsed (get_or lines.old line (pos 0)) amplitude) line place lines.old at }
{
    let after = pulsed_line(lines[line], amplitude);
    if 8191 < after.unsigned_abs() {
        return refused(26, place);
    }
    lines[line] = after as i16;
    Ok(at)
}

// The pulses are applied in order.
pub fn apply_pulses(at: usize, pulses: Pulses, lines: &mut [i16; 1024]) -> Ended
    requires { Applicable pulses }
    ensures { Always result lines.new (apply_pulses pulses lines.old) at }
{
    let mut place = at;
    for k in 0..pulses.count {
        let line = pulses.lines[k] as usize;
        place = apply_pulse(place, line, pulses.amplitudes[k], pulses.places[k], lines)?;
    }
    Ok(place)
}

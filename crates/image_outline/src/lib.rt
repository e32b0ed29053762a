// The outline of a tag image: what each payload answers, in order.
#![tactic(auto)]

ghost use Rattle.std.specs.Prelude.{◌≡◌, [], ◌∷◌, ◌+◌, ◌*◌, ◌≤◌, ◌<◌, length, replicate};
ghost use Rattle.image.specs.Image.{header_of};
ghost use Rattle.bits.specs.Bytes.{over};
ghost use Rattle.image_outline.specs.Answers.{channel_in, stereo_in, state_from};
ghost use Rattle.image_outline.specs.Outline.{channel_row, stereo_row, row_from, rows_of, OutlinePromise};

use image::Header;
use sounding::{count_sounding, no_lines};
use stereo::{State, states};

// The five numbers of a payload: its refusal and the bit at which it was refused, or 0, and what it holds.
#[derive(Clone, Copy)]
pub struct Row {
    pub number: usize,
    pub place: usize,
    pub first: usize,
    pub second: usize,
    pub bits: usize,
}

fn wide(x: u8) -> usize
    ensures { (result ≡ x) × (result < 256) }
{
    x as usize
}

// A 0 for each band.
fn no_bands() -> [u8; 120]
    ensures { result ≡ replicate 120 0 }
{
    [0u8; 120]
}

// The row of a channel stream that fills a part.
fn channel_row(part: &[u8], index: u8) -> Row
    ensures { result.number ∷ result.place ∷ result.first ∷ result.second ∷ result.bits ∷ [] ≡ channel_row (channel_in index part.now) }
{
    let mut lines = no_lines();
    let mut factors = no_bands();
    let mut books = no_bands();
    let end = part.len();
    let r = channel::read_channel(part, 0, end, index, &mut lines, &mut factors, &mut books);
    Row {
        number: wide(r.number),
        place: r.place,
        first: wide(r.gain),
        second: count_sounding(&lines),
        bits: r.bits,
    }
}

// A row is put at a place.
fn put_row(rows: &mut [usize], at: usize, row: Row)
    requires { at + 5 ≤ length rows.old }
    ensures { rows.new
        ≡ over rows.old at (row.number ∷ row.place ∷ row.first ∷ row.second ∷ row.bits ∷ []) }
{
    let five = [row.number, row.place, row.first, row.second, row.bits];
    rows[at..at + 5].copy_from_slice(&five);
}

// A payload's row, and the stereo state after it.
#[derive(Clone, Copy)]
struct Turn {
    row: Row,
    state: State,
}

// The row of a stereo payload that fills a part, and the state after it.
fn stereo_turn(part: &[u8], state: State) -> Turn
    ensures { (result.row.number ∷ result.row.place ∷ result.row.first ∷ result.row.second ∷ result.row.bits ∷ []
        ≡ stereo_row (stereo_in state part.now)) × (result.state ≡ (stereo_in state part.now).state) }
{
    let r = stereo_reader::read(state, part, 0, part.len());
    let row = Row {
        number: wide(r.number),
        place: r.place,
        first: r.contents.frame.envelopes,
        second: 0,
        bits: r.bits,
    };
    let next = r.state;
    Turn { row, state: next }
}

// The turn of the k-th payload, an even one a channel stream and an odd one a stereo payload.
fn turn_of(part: &[u8], k: usize, index: u8, state: State) -> Turn
    ensures { (result.row.number ∷ result.row.place ∷ result.row.first ∷ result.row.second ∷ result.row.bits ∷ []
        ≡ row_from state index k part.now) × (result.state ≡ state_from state k part.now) }
{
    if k % 2 == 0 {
        let row = channel_row(part, index);
        return Turn { row, state };
    }
    stereo_turn(part, state)
}

// The rows of an image whose header has this count and index.
fn fill_rows(image: &[u8], count: usize, index: u8, rows: &mut [usize])
    requires { (count ≤ 1024) × (5 * count ≤ length rows.old)
        × (header_of image.now ≡ record { number = 0; count = count; index = index }) }
    ensures { rows.new ≡ over rows.old 0 (rows_of image.now count) }
{
    let mut state = states::fresh();
    for k in 0..count {
        let part = image::known_part(image, k);
        let turn = turn_of(&image[part.start..part.end], k, index, state);
        put_row(rows, 5 * k, turn.row);
        state = turn.state;
    }
}

// The outline of an image: its header, and in the lent rows five numbers of each payload.
pub fn read_image(image: &[u8], rows: &mut [usize]) -> Header
    ensures { OutlinePromise image.now rows.old result rows.new }
{
    let header = image::header_for(image, 5, rows.len());
    if header.number != 0 {
        return header;
    }
    fill_rows(image, header.count, header.index, rows);
    header
}

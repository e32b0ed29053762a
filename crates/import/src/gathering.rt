// The streams of a file, gathered for an image: from byte 2,054 of a lent buffer on, which is where the largest header would end.
ghost use Rattle.std.specs.Prelude.{◌≡◌, ◌+◌, ◌*◌, ◌<◌, ◌≤◌, length, IfOk};
ghost use Rattle.bits.specs.Packed.{bytes_for};
ghost use Rattle.import.specs.InnerGathering.{FitsImage, TakenFrom};

use adts::Framed;
use adts_files::window;
use print_lines::faults;
use std::io::Read;

// How many streams were gathered, up to which byte of the file, how many bytes they take with the stereo payloads after them, and their
// sampling index.
#[derive(Clone, Copy)]
pub struct Gathered {
    pub count: usize,
    pub byte: usize,
    pub size: usize,
    pub index: u8,
}

// What is gathered with a frame, and how long the frame is.
#[derive(Clone, Copy)]
pub struct Taken {
    pub gathered: Gathered,
    pub length: usize,
}

// That a fault was told on standard error.
#[derive(Clone, Copy)]
pub struct Told;

// Before the first frame nothing is gathered.
fn nothing() -> Gathered
    ensures { FitsImage result }
{
    Gathered {
        count: 0,
        byte: 0,
        size: 0,
        index: 0,
    }
}

// The stream of the frame at the front of a slice is put at a place of the image.
fn unwrap_at(bytes: &[u8], image: &mut [u8], at: usize) -> Framed
    requires { at ≤ length image.old }
    ensures { (result.length ≤ length bytes.now)
        × (at + bytes_for result.reading.bits ≤ length image.new) }
{
    adts::unwrap(bytes, 0, &mut image[at..])
}

// The first frame's sampling index: the 0-th frame is the first.
fn first_index(k: usize, first: u8, index: u8) -> u8 {
    if k == 0 {
        return index;
    }
    first
}

// How many bytes so many bits take.
fn bytes_for(bits: usize) -> usize
    requires { bits ≤ 1000000 }
    ensures { result ≡ bytes_for bits }
{
    (bits + 7) / 8
}

// A frame is judged after what was gathered, for a sampling index; where an image does not take it, it is told why.
fn judge(err: &impl Print, g: Gathered, index: u8, f: Framed) -> Result<(), Told>
    requires { FitsImage g × (bytes_for f.reading.bits ≤ 76000) }
    ensures { IfOk result (λ fits. (g.count < 512)
        × (g.size + bytes_for f.reading.bits + 4 * g.count + 11 ≤ 65535)) }
{
    if f.reading.number != 0 {
        faults::tell_refused(err, g.count, g.byte, f.reading.number as usize);
        return Err(Told);
    }
    if f.index != index {
        faults::tell_index(err, g.count, g.byte, f.index as usize, index as usize);
        return Err(Told);
    }
    if 512 <= g.count {
        faults::tell_count(err, g.count, g.byte);
        return Err(Told);
    }
    if 65535 < g.size + bytes_for(f.reading.bits) + 4 * g.count + 11 {
        faults::tell_size(err, g.count, g.byte);
        return Err(Told);
    }
    Ok(())
}

// What is gathered with the frame at the front of a slice: its stream and the stereo payload 0 are put into the image, and where the stream
// ends after its header; or a fault is told.
fn take_frame(
    err: &impl Print,
    bytes: &[u8],
    image: &mut [u8],
    ends: &mut [u16],
    g: Gathered,
) -> Result<Taken, Told>
    requires { (length bytes.now ≤ 65536) × (length image.old ≡ 76000) × (512 ≤ length ends.old) × FitsImage g }
    ensures { IfOk result (λ taken. TakenFrom g bytes.now taken) }
{
    let f = unwrap_at(bytes, image, 2054 + g.size);
    let index = first_index(g.count, g.index, f.index);
    judge(err, g, index, f)?;
    let last = g.size + bytes_for(f.reading.bits);
    image[2054 + last] = 0;
    ends[g.count] = last as u16;
    let gathered = Gathered {
        count: g.count + 1,
        byte: g.byte + f.length,
        size: last + 1,
        index,
    };
    Ok(Taken {
        gathered,
        length: f.length,
    })
}

// The streams of the file, each followed by the stereo payload 0, and where each ends; up to the first fault, which is told.
pub fn gather(
    input: &mut impl Read,
    err: &impl Print,
    buffer: &mut [u8],
    image: &mut [u8],
    ends: &mut [u16],
) -> Result<Gathered, Told>
    requires { (8191 ≤ length buffer.old) × (length buffer.old ≤ 65536) × (length image.old ≡ 76000) × (512 ≤ length ends.old) }
    ensures { IfOk result (λ gathered. FitsImage gathered) }
{
    let mut g = nothing();
    let mut w = window::empty();
    // A `loop`, as only a frame says where the next one is.
    loop {
        if window::refill(input, buffer, &mut w).is_err() {
            let _ = err.println("oarcradler: standard input cannot be read");
            return Err(Told);
        }
        if w.start == w.end {
            return Ok(g);
        }
        let taken = take_frame(err, &buffer[w.start..w.end], image, ends, g)?;
        g = taken.gathered;
        w = window::passed(w, taken.length);
    }
}

// The frames of an ADTS file on standard input, a line each.
#![tactic(auto)]

ghost use Rattle.std.specs.Prelude.{◌≤◌, length};

use adts_files::rows::Row;
use adts_files::{rows, window};
use print_lines::frames;
use std::io::Read;

// Why a listing stopped.
#[derive(Clone, Copy)]
enum Fault {
    Unreadable,
    Unwritten,
    Uncounted,
}

// What is told of a fault.
fn words_of(fault: Fault) -> &'static str {
    match fault {
        Fault::Unreadable => "oarcradler: standard input cannot be read",
        Fault::Unwritten => "oarcradler: standard output cannot be written: lines are missing",
        Fault::Uncounted => "oarcradler: standard input is too long: its bytes cannot be counted",
    }
}

// The line of the k-th frame, which starts at a byte of the file.
fn say_row(out: &impl Print, k: usize, byte: usize, r: Row) -> std::io::Result<()> {
    if r.number != 0 {
        return frames::say_refused_frame(out, k, byte, r.number, r.place);
    }
    frames::say_frame(out, k, byte, r.length, r.index, r.gain, r.lines, r.bits)
}

// The frames of the file, as far as a next one is known. Bytes and frames are counted up to 2^64 - 257, the largest number that a line can
// have; each frame has a byte, so the frames are not more.
fn list_frames(input: &mut impl Read, out: &impl Print, buffer: &mut [u8]) -> Result<(), Fault>
    requires { 8191 ≤ length buffer.old }
{
    let mut k = 0;
    let mut byte = 0usize;
    let mut w = window::empty();
    // A `loop`, as only a frame says where the next one is.
    loop {
        if window::refill(input, buffer, &mut w).is_err() {
            return Err(Fault::Unreadable);
        }
        if w.start == w.end {
            return Ok(());
        }
        let row = rows::read_row(&buffer[w.start..w.end]);
        if say_row(out, k, byte, row).is_err() {
            return Err(Fault::Unwritten);
        }
        if row.step == 0 {
            return Ok(());
        }
        if 18446744073709551359 - byte < row.step {
            return Err(Fault::Uncounted);
        }
        k += 1;
        byte += row.step;
        w = window::passed(w, row.step);
    }
}

// The file on standard input. A fault of the input or the output is told on standard error, of which tools/run makes an exit status.
fn main(rt: HostRuntime) {
    let mut buffer = io::large_buffer();
    let listed = list_frames(&mut rt.stdin(), &rt, &mut buffer);
    if let Err(fault) = listed {
        let _ = rt.eprintln(words_of(fault));
    }
}

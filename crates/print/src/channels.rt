// What a channel payload holds, printed.
use print_rows::channels;
use std::io;

// What a channel payload holds, where it is accepted.
pub fn print_channel(out: &impl Print, bytes: &[u8], index: u8) -> io::Result<()> {
    let mut lines = [0i16; 1024];
    let mut factors = [0u8; 120];
    let mut books = [0u8; 120];
    let end = bytes.len();
    let r = channel::read_channel(bytes, 0, end, index, &mut lines, &mut factors, &mut books);
    if r.number != 0 {
        return Ok(());
    }
    channels::print_reading(out, r, &lines, &factors, &books)
}

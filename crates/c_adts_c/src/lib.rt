// The exports of c_adts for a program in C.
#![tactic(auto)]

ghost use Rattle.c_adts.specs.ReadFrame.{ReadFramePromise};
ghost use Rattle.c_adts.specs.UnwrapFrame.{UnwrapFramePromise};
ghost use Rattle.c_adts.specs.WrapStream.{WrapStreamPromise};

// The frame at a byte of a file: the lent outputs and the lent answer get its numbers.
#[unsafe(no_mangle)]
pub extern "C" fn oarcradler_read_frame(
    file: &[u8],
    start: usize,
    lines: &mut [i16],
    factors: &mut [u8],
    books: &mut [u8],
    answer: &mut [u8],
) -> u32
    ensures { ReadFramePromise
        (record {
          file = file.now;
          start = start;
          outputs = record { lines = lines.old; factors = factors.old; books = books.old };
          answer = answer.old;
        })
        result (record { lines = lines.new; factors = factors.new; books = books.new }) answer.new }
{
    c_adts::oarcradler_read_frame(file, start, lines, factors, books, answer)
}

// The frame at a byte of a file: its channel stream is put at the front of a lent buffer, and the lent answer gets its numbers.
#[unsafe(no_mangle)]
pub extern "C" fn oarcradler_unwrap_frame(
    file: &[u8],
    start: usize,
    out: &mut [u8],
    answer: &mut [u8],
) -> u32
    ensures { UnwrapFramePromise
        (record { file = file.now; start = start; out = out.old; answer = answer.old })
        result out.new answer.new }
{
    c_adts::oarcradler_unwrap_frame(file, start, out, answer)
}

// The channel stream in the bytes from start to end of a buffer, for a sampling index, is put as one frame at the front of a lent buffer,
// and the lent answer gets the frame's length.
#[unsafe(no_mangle)]
pub extern "C" fn oarcradler_wrap_stream(
    buf: &[u8],
    start: usize,
    end: usize,
    index: u32,
    out: &mut [u8],
    answer: &mut [u8],
) -> u32
    ensures { WrapStreamPromise
        (record {
          payload = record { bytes = buf.now; start = start; end = end };
          index = index;
          out = out.old;
          answer = answer.old;
        })
        result out.new answer.new }
{
    c_adts::oarcradler_wrap_stream(buf, start, end, index, out, answer)
}

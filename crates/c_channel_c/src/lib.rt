// The export of c_channel for a program in C.
#![tactic(auto)]

ghost use Rattle.c_channel.specs.ReadChannel.{ReadChannelPromise};

// The channel stream in the bytes from start to end of a buffer, for a sampling index: the lent outputs and the lent answer get its
// numbers.
#[unsafe(no_mangle)]
pub extern "C" fn oarcradler_read_channel(
    buf: &[u8],
    start: usize,
    end: usize,
    index: u32,
    lines: &mut [i16],
    factors: &mut [u8],
    books: &mut [u8],
    answer: &mut [u8],
) -> u32
    ensures { ReadChannelPromise
        (record {
          payload = record { bytes = buf.now; start = start; end = end };
          index = index;
          outputs = record { lines = lines.old; factors = factors.old; books = books.old };
          answer = answer.old;
        })
        result (record { lines = lines.new; factors = factors.new; books = books.new }) answer.new }
{
    c_channel::oarcradler_read_channel(buf, start, end, index, lines, factors, books, answer)
}

// The export of c_writer for a program in C.
#![tactic(auto)]

ghost use Rattle.c_writer.specs.WriteStereo.{WriteStereoPromise};

// Contents are written as a stereo payload to the front of a lent output: a lent state is moved on, and a lent answer gets the bits.
#[unsafe(no_mangle)]
pub extern "C" fn oarcradler_write_stereo(
    state: &mut [u8],
    contents: &[u8],
    out: &mut [u8],
    answer: &mut [u8],
) -> u32
    ensures { WriteStereoPromise
        (record {
          state = state.old;
          contents = contents.now;
          out = out.old;
          answer = answer.old;
        })
        result state.new out.new answer.new }
{
    c_writer::oarcradler_write_stereo(state, contents, out, answer)
}

// The exports of c_stereo for a program in C.
#![tactic(auto)]

ghost use Rattle.c_stereo.specs.ReadStereo.{ReadStereoPromise};
ghost use Rattle.c_stereo.specs.StateCalls.{FreshStatePromise, ReportMissingPromise};

// The state before any payload is written to the front of a lent state.
#[unsafe(no_mangle)]
pub extern "C" fn oarcradler_fresh_state(state: &mut [u8]) -> u32
    ensures { FreshStatePromise state.old result state.new }
{
    c_stereo::oarcradler_fresh_state(state)
}

// A payload is reported missing: the mark of a lent state is set out of step.
#[unsafe(no_mangle)]
pub extern "C" fn oarcradler_report_missing(state: &mut [u8]) -> u32
    ensures { ReportMissingPromise state.old result state.new }
{
    c_stereo::oarcradler_report_missing(state)
}

// The stereo payload in the bytes from start to end of a buffer: a lent state is moved on, and a lent answer gets its bits and contents.
#[unsafe(no_mangle)]
pub extern "C" fn oarcradler_read_stereo(
    state: &mut [u8],
    buf: &[u8],
    start: usize,
    end: usize,
    answer: &mut [u8],
) -> u32
    ensures { ReadStereoPromise
        (record {
          state = state.old;
          payload = record { bytes = buf.now; start = start; end = end };
          answer = answer.old;
        })
        result state.new answer.new }
{
    c_stereo::oarcradler_read_stereo(state, buf, start, end, answer)
}

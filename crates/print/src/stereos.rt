// What a stereo payload holds, printed.
ghost use Rattle.std.specs.Prelude.{◌≡◌, IfOk};
ghost use Rattle.image_outline.specs.Answers.{stereo_in};

use print_rows::{contents, records};
use std::io;
use stereo::{Contents, State};

// What a stereo payload holds, where it is accepted, and the state after it.
fn print_accepted(
    out: &impl Print,
    number: u8,
    contents: Contents,
    state: State,
) -> io::Result<()> {
    if number == 0 {
        contents::print_contents(out, contents, state.setup)?;
    }
    records::print_state(out, state)
}

// The contents of a stereo payload, where it is accepted, and the state after it, which comes back.
pub fn print_stereo(out: &impl Print, state: State, bytes: &[u8]) -> io::Result<State>
    ensures { IfOk result (λ next. next ≡ (stereo_in state bytes.now).state) }
{
    let r = stereo_reader::read(state, bytes, 0, bytes.len());
    print_accepted(out, r.number, r.contents, r.state)?;
    Ok(r.state)
}

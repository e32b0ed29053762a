// A payload's contents, put into the scratch array as they are read from a state.
ghost use Rattle.stereo_writer.specs.InnerWrote.{Wrote, Room};
ghost use Rattle.stereo_writer.specs.Spelling.{spelling};

use crate::extensions::put_extension;
use crate::fields::{put_frame, put_header};
use crate::rows::put_rows;
use crate::scratch::Scratch;
use stereo::{Contents, State, headers, payloads};
use stereo_indices::Kind;
use tables::StereoWords;

// The contents of a payload.
pub fn put_contents(w: &mut Scratch, state: State, contents: Contents, words: &StereoWords)
    requires { Room 10952 w.old }
    ensures { Wrote 10952 w.old (spelling state contents) w.new }
{
    let setup = headers::setup_after(state.setup, contents.header);
    let records = payloads::phase_records(state);
    let mode = setup.iidmode;
    let n = contents.frame.envelopes;
    put_header(w, contents.header);
    put_frame(w, contents.frame);
    put_rows(
        w,
        Kind::Iid,
        setup.iid,
        mode,
        state.iid,
        n,
        contents.iid,
        words,
    );
    put_rows(
        w,
        Kind::Icc,
        setup.icc,
        setup.iccmode,
        state.icc,
        n,
        contents.icc,
        words,
    );
    put_extension(w, setup.ext, mode, records, n, contents.extension, words);
}

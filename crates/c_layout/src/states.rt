// The stereo state as bytes.
ghost use Rattle.std.specs.Prelude.{◌≡◌, ◌&&◌, ◌+◌, ◌≤◌, length};
ghost use Rattle.bits.specs.Bytes.{over};
ghost use Rattle.c_layout.specs.StateBytes.{state_head, state_bytes, record_at, state_at, is_flag, sound_bytes};

use crate::{answers, indices};
use bits::bytes;
use stereo::{Setup, State};
use stereo_indices::Record;

// The record at a place: a row whose number is its mode.
fn record_at(s: &[u8], at: usize) -> Record
    requires { at + 35 ≤ length s.now }
    ensures { result ≡ record_at s.now at }
{
    let row = answers::row_at(s, at);
    let indices = row.indices;
    Record {
        mode: row.time,
        indices,
    }
}

// The state that bytes stand for.
pub fn state_at(s: &[u8]) -> State
    requires { 146 ≤ length s.now }
    ensures { result ≡ state_at s.now }
{
    let setup = Setup {
        iid: s[0] == 1,
        icc: s[1] == 1,
        ext: s[2] == 1,
        iidmode: bytes::wide(s[3]),
        iccmode: bytes::wide(s[4]),
    };
    let iid = record_at(s, 6);
    let icc = record_at(s, 41);
    let ipd = record_at(s, 76);
    let opd = record_at(s, 111);
    State {
        setup,
        iid,
        icc,
        ipd,
        opd,
        instep: s[5] == 1,
    }
}

// Whether four bytes are flags.
fn are_flags(a: u8, b: u8, c: u8, d: u8) -> bool
    ensures { result ≡ is_flag a && is_flag b && is_flag c && is_flag d }
{
    a <= 1 && b <= 1 && c <= 1 && d <= 1
}

// Whether bytes stand for a sound state.
pub fn is_sound_at(s: &[u8]) -> bool
    ensures { result ≡ sound_bytes s.now }
{
    if s.len() < 146 {
        return false;
    }
    if !are_flags(s[0], s[1], s[2], s[5]) {
        return false;
    }
    stereo::states::is_sound(state_at(s))
}

// What stands before the records, as bytes.
fn head_of(state: State) -> [u8; 6]
    ensures { result ≡ state_head state }
{
    let setup = state.setup;
    [
        bytes::flag_byte(setup.iid),
        bytes::flag_byte(setup.icc),
        bytes::flag_byte(setup.ext),
        bytes::byte_of(setup.iidmode),
        bytes::byte_of(setup.iccmode),
        bytes::flag_byte(state.instep),
    ]
}

// A state is put at the front of a buffer.
pub fn put_state(out: &mut [u8], state: State)
    requires { 146 ≤ length out.old }
    ensures { out.new ≡ over out.old 0 (state_bytes state) }
{
    let head = head_of(state);
    bytes::put(out, 0, &head);
    indices::put_numbered(out, 6, state.iid.mode, state.iid.indices);
    indices::put_numbered(out, 41, state.icc.mode, state.icc.indices);
    indices::put_numbered(out, 76, state.ipd.mode, state.ipd.indices);
    indices::put_numbered(out, 111, state.opd.mode, state.opd.indices);
}

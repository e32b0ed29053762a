// The stereo writer.
ghost use Rattle.std.specs.Prelude.{◌≡◌, true, ◌≤◌, replicate};
ghost use Rattle.bits.specs.Pieces.{total};
ghost use Rattle.bits.specs.Packed.{put_all, bytes_for};
ghost use Rattle.bits.specs.Writable.{matches};
ghost use Rattle.stereo.specs.State.{sound};
ghost use Rattle.stereo.specs.Payload.{payload};
ghost use Rattle.stereo_writer.specs.InnerWrote.{Wrote, Room};
ghost use Rattle.stereo_writer.specs.Spelling.{spelling};
ghost use Rattle.stereo_writer.specs.Same.{same_contents};
ghost use Rattle.stereo_writer.specs.Writing.{can_write, unwritten, WritePromise};

use crate::Written;
use crate::payloads::put_contents;
use crate::same::same_contents;
use crate::scratch::Scratch;
use bits::Bits;
use bits::write::copy_out;
use stereo::{Contents, State, payloads, states, turns};

// A refusal: nothing is written, and the state stays.
fn refused(number: u8, state: State) -> Written
    ensures { result ≡ unwritten number state }
{
    Written {
        number,
        bits: 0,
        state,
    }
}

// Whether what is read from a payload are these contents.
fn is_read_back(s: &Bits, state: State, contents: &Contents) -> bool
    ensures { result ≡ matches same_contents (payload state s.now.bytes.now 0 s.now.end) contents.now }
{
    let lookups = tables::stereo_lookups();
    let mut back = payloads::no_contents();
    match payloads::read_payload(s, state, &lookups, &mut back) {
        Ok(_) => same_contents(back, *contents),
        Err(_) => false,
    }
}

// How many bytes hold so many bits.
fn bytes_for(bits: usize) -> usize
    requires { bits ≤ 12288 }
    ensures { result ≡ bytes_for bits }
{
    (bits + 7) / 8
}

// Contents spelled from a state into a scratch array.
fn put_spelled(w: &mut Scratch, state: State, contents: &Contents)
    requires { Room 10952 w.old }
    ensures { Wrote 10952 w.old (spelling state contents.now) w.new }
{
    let words = tables::stereo_words();
    put_contents(w, state, *contents, &words);
}

// Contents spelled from a state into a scratch array of zeros: whether they are read back.
fn spell(w: &mut Scratch, state: State, contents: &Contents) -> bool
    requires { (w.old.bytes ≡ replicate 1536 0) × (w.old.at ≡ 0) }
    ensures { (w.new.at ≡ total (spelling state contents.now)) × (w.new.at ≤ 10952)
        × (result ≡ can_write state contents.now)
        × (w.new.bytes ≡ put_all (replicate 1536 0) 0 (spelling state contents.now)) }
{
    put_spelled(w, state, contents);
    let s = Bits {
        bytes: &w.bytes,
        end: w.at,
    };
    is_read_back(&s, state, contents)
}

// Contents written from a sound state into a lent buffer.
pub fn write_sound(out: &mut [u8], state: State, contents: &Contents) -> Written
    requires { sound state ≡ true }
    ensures { WritePromise out.old state contents.now result out.new }
{
    let before = stereo_reader::read_from(state);
    let mut scratch = Scratch {
        bytes: [0u8; 1536],
        at: 0,
    };
    if !spell(&mut scratch, before, contents) {
        return refused(40, state);
    }
    if !stereo_reader::is_accepted(state, contents) {
        return refused(35, state);
    }
    let bits = scratch.at;
    let bytes = bytes_for(bits);
    if out.len() < bytes {
        return refused(2, state);
    }
    copy_out(out, &scratch.bytes, bytes);
    let next = turns::carried(before, contents);
    Written {
        number: 0,
        bits,
        state: next,
    }
}

// Contents written from a state into a lent buffer: the refusal, or 0, how many bits were written, and the next state.
pub fn write(out: &mut [u8], state: State, contents: Contents) -> Written
    ensures { WritePromise out.old state contents result out.new }
{
    if !states::is_sound(state) {
        return refused(4, state);
    }
    write_sound(out, state, &contents)
}

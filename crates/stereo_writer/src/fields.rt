// Fields of the header and the frame, put into the scratch array.
ghost use Rattle.std.specs.Prelude.{◌≡◌};
ghost use Rattle.stereo_writer.specs.InnerWrote.{Wrote, Room};
ghost use Rattle.stereo_writer.specs.Spelling.{spell_fields, spell_header, count_index, spell_borders, spell_frame};

use crate::scratch::Scratch;
use stereo::{Frame, Header};

// The fields of a header that is there.
fn put_fields(w: &mut Scratch, h: Header)
    requires { Room 9 w.old }
    ensures { Wrote 9 w.old (spell_fields h) w.new }
{
    w.put(h.iid, 1);
    w.put_if(h.iid == 1, h.iidmode, 3);
    w.put(h.icc, 1);
    w.put_if(h.icc == 1, h.iccmode, 3);
    w.put(h.ext, 1);
}

// The header.
pub fn put_header(w: &mut Scratch, h: Header)
    requires { Room 10 w.old }
    ensures { Wrote 10 w.old (spell_header h) w.new }
{
    w.put(h.there, 1);
    if h.there != 1 {
        return;
    }
    put_fields(w, h);
}

// The index of a number of envelopes.
#[tactic(auto, unfolding(crate::specs::Spelling::count_index))]
fn count_index(class: u32, n: usize) -> u32
    ensures { result ≡ count_index class n }
{
    let few = n.min(4) as u32;
    if class == 1 {
        return few.saturating_sub(1);
    }
    if n == 4 {
        return 3;
    }
    few
}

// The borders of n envelopes, where they are variable.
fn put_borders(w: &mut Scratch, class: u32, n: usize, borders: [u32; 4])
    requires { Room 20 w.old }
    ensures { Wrote 20 w.old (spell_borders class n borders) w.new }
{
    if class != 1 {
        return;
    }
    let sent = &borders[..n.min(4)];
    for border in sent {
        w.put(*border, 5);
    }
}

// The frame.
pub fn put_frame(w: &mut Scratch, f: Frame)
    requires { Room 23 w.old }
    ensures { Wrote 23 w.old (spell_frame f) w.new }
{
    w.put(f.class, 1);
    w.put(count_index(f.class, f.envelopes), 2);
    put_borders(w, f.class, f.envelopes, f.borders);
}

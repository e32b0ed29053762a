// A window over a file on standard input. A frame has at most 8,191 bytes, so with as many in the window, or all that are left, a frame is
// read as in the whole file.
ghost use Rattle.std.specs.Prelude.{◌≡◌, ◌+◌, ◌-◌, ◌≤◌, length, take, drop, IfOk, OnErr};
ghost use Rattle.adts_files.specs.InnerWindow.{Kept, Enough};

use std::io::Read;

// The bytes of a lent buffer that were read and are not listed yet, and whether the input has ended.
#[derive(Clone, Copy)]
pub struct Window {
    pub start: usize,
    pub end: usize,
    pub ended: bool,
}

// The window before anything is read.
pub fn empty() -> Window
    ensures { (result.start ≡ 0) × (result.end ≡ 0) }
{
    Window {
        start: 0,
        end: 0,
        ended: false,
    }
}

// The bytes from start to end are moved to the front.
fn move_front(buffer: &mut [u8], start: usize, end: usize)
    requires { (start ≤ end) × (end ≤ length buffer.old) }
    ensures { take (end - start) buffer.new ≡ take (end - start) (drop start buffer.old) }
{
    buffer.copy_within(start..end, 0);
}

// Standard input is read behind a window at the front, until a frame's most are in it or the input ends.
fn read_on(input: &mut impl Read, buffer: &mut [u8], w: &mut Window) -> std::io::Result<()>
    requires { (w.old.end ≤ 8191) × (8191 ≤ length buffer.old) }
    ensures kept { (w.new.start ≡ w.old.start) × (w.old.end ≤ w.new.end) × (w.new.end ≤ length buffer.new)
        × (take w.old.end buffer.new ≡ take w.old.end buffer.old) }
    ensures ok { IfOk result (λ done. Enough w.new.ended w.new.end) }
{
    // A `while`, as a read brings as many bytes as there are.
    while w.end < 8191 {
        let more = input.read(&mut buffer[w.end..])?;
        if more == 0 {
            w.ended = true;
            return Ok(());
        }
        w.end += more;
    }
    Ok(())
}

// The window gets a frame's most, or all that is left: what is in it stays, and what comes next is read behind it. Where a read fails,
// what was read before it is in the window, too, which stands at the front then.
pub fn refill(input: &mut impl Read, buffer: &mut [u8], w: &mut Window) -> std::io::Result<()>
    requires { (w.old.start ≤ w.old.end) × (w.old.end ≤ length buffer.old) × (8191 ≤ length buffer.old) }
    ensures kept { (w.new.start ≤ w.new.end) × (w.new.end ≤ length buffer.new)
        × Kept w.old.start w.old.end buffer.old w.new.start w.new.end buffer.new }
    ensures ok { IfOk result (λ done. Enough w.new.ended (w.new.end - w.new.start)) }
    ensures err { OnErr result (w.new.start ≡ 0) }
{
    if w.ended {
        return Ok(());
    }
    let enough = 8191 <= w.end - w.start;
    if enough {
        return Ok(());
    }
    move_front(buffer, w.start, w.end);
    *w = Window {
        start: 0,
        end: w.end - w.start,
        ended: false,
    };
    read_on(input, buffer, w)
}

// The window after the first bytes of it.
pub fn passed(w: Window, n: usize) -> Window
    requires { w.start + n ≤ w.end }
    ensures { (result.start ≡ w.start + n) × (result.end ≡ w.end) × (result.ended ≡ w.ended) }
{
    Window {
        start: w.start + n,
        end: w.end,
        ended: w.ended,
    }
}

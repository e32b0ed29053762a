// A tag image of the frames of an ADTS file on standard input.
#![tactic(auto)]

ghost use Rattle.std.specs.Prelude.{◌+◌, ◌*◌, ◌≤◌, ◌≡◌, length};

use heading::put_heading;

mod gathering;
mod heading;

// The image of what was gathered is written, its header right before the streams.
fn write_image(
    out: &impl Print,
    image: &mut [u8],
    ends: &[u16],
    index: u8,
    count: usize,
    size: usize,
) -> std::io::Result<()>
    requires { (count ≤ 512) × (size + 4 * count ≤ 65529) × (length image.old ≡ 76000) × (512 ≤ length ends.now) }
{
    let start = 2048 - 4 * count;
    let end = 2054 + size;
    put_heading(image, start, index, ends, count);
    out.write_all(&image[start..end])
}

// The file on standard input. Why no image is made or written is told on standard error, of which tools/run makes an exit status.
fn main(rt: HostRuntime) {
    let mut buffer = io::large_buffer();
    let mut image = [0u8; 76000];
    let mut ends = [0u16; 512];
    let gathered = gathering::gather(
        &mut rt.stdin(),
        &rt.stderr(),
        &mut buffer,
        &mut image,
        &mut ends,
    );
    let Ok(g) = gathered else {
        return;
    };
    if g.count == 0 {
        let _ = rt.eprintln("oarcradler: standard input has no frame");
        return;
    }
    if write_image(&rt, &mut image, &ends, g.index, g.count, g.size).is_err() {
        let _ = rt.eprintln("oarcradler: standard output cannot be written");
    }
}

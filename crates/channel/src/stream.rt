// A whole channel stream, read into lent arrays of zeros.
ghost use Rattle.std.specs.Prelude.{◌≡◌, ◌≤◌, pos, replicate};
ghost use Rattle.bits.specs.InnerAnswers.{answer_of, ended_answer, reads};
ghost use Rattle.bits.specs.Payload.{whole};
ghost use Rattle.channel_bands.specs.Bands.{bands};
ghost use Rattle.channel_bands.specs.InnerBands.{all_edges};
ghost use Rattle.channel_side.specs.InnerAnswers.{Bounded, Known};
ghost use Rattle.channel_side.specs.Window.{is_short};
ghost use Rattle.channel_side.specs.Factors.{scale_factors};
ghost use Rattle.channel.specs.InnerAnswers.{HoldsLines, HoldsRest, HoldsStream};
ghost use Rattle.channel.specs.Stream.{head_of, no_tools, unpulsed, coded_of, stream_with, stream_after, stream};

use bits::{Answer, Bits, Ended, refused};
use channel_bands::bands::part_of;
use channel_bands::grouping::groups_of;
use channel_lines::lines::read_lines;
use channel_side::factors::read_factors;
use channel_side::pulses::{apply_pulses, read_pulses};
use channel_side::sections::read_books;
use channel_side::window::{Window, read_window};
use tables::ChannelLookups;

// global_gain and the window information.
#[derive(Clone, Copy)]
pub struct Head {
    pub gain: u8,
    pub window: Window,
}

// The head: max_sfb is no more than the number of bands.
#[tactic(auto, using(bits::proofs::Taken::field_below), unfolding(crate::specs::Stream::head_of))]
fn read_head(s: &Bits, at: usize, index: u8) -> Answer<Head>
    ensures { (answer_of result ≡ reads (head_of index) s.now at) × Known (λ head. Bounded index head.window) result }
{
    let (gain, after_gain) = s.field(at, 8)?;
    let (window, after_window) = read_window(s, after_gain, index)?;
    let head = Head {
        gain: gain as u8,
        window,
    };
    Ok((head, after_window))
}

// The flags of TNS and gain control, which have to be 0.
#[tactic(auto, unfolding(crate::specs::Stream::no_tools))]
fn read_flags(s: &Bits, at: usize) -> Answer<u32>
    ensures { answer_of result ≡ reads no_tools s.now at }
{
    let (_, after_tns) = s.unset_bit(at, 20)?;
    s.unset_bit(after_tns, 20)
}

// The flags of TNS and gain control and the spectrum, with the bands of the windows, into lines that are 0.
#[tactic(auto, unfolding(crate::specs::Stream::unpulsed))]
fn read_unpulsed(
    s: &Bits,
    at: usize,
    lookups: &ChannelLookups,
    edges: &[usize],
    index: u8,
    window: Window,
    books: &[u8; 120],
    lines: &mut [i16; 1024],
) -> Ended
    requires { (edges.now ≡ bands index (is_short window))
        × Bounded index window × (lines.old ≡ replicate 1024 (pos 0)) }
    ensures { ended_answer result lines.new ≡ reads (unpulsed index window books.now) s.now at }
{
    let (_, after_flags) = read_flags(s, at)?;
    let short = window.sequence == 2;
    let max_sfb = window.max_sfb as usize;
    let grouping = window.grouping;
    read_lines(
        s,
        after_flags,
        lookups,
        edges,
        short,
        max_sfb,
        grouping,
        books,
        lines,
    )
}

// Pulses, flags and spectrum, with the bands of the windows, into lines that are 0.
#[tactic(auto, unfolding(crate::specs::Stream::coded_of))]
fn read_pulsed(
    s: &Bits,
    at: usize,
    lookups: &ChannelLookups,
    edges: &[usize],
    index: u8,
    window: Window,
    books: &[u8; 120],
    lines: &mut [i16; 1024],
) -> Ended
    requires { (edges.now ≡ bands index (is_short window))
        × Bounded index window × (lines.old ≡ replicate 1024 (pos 0)) }
    ensures { HoldsLines result lines.new (reads (coded_of index window books.now) s.now at) }
{
    let (pulses, after_pulses) = read_pulses(s, at, index, window.sequence == 2, edges)?;
    let after_lines = read_unpulsed(s, after_pulses, lookups, edges, index, window, books, lines)?;
    apply_pulses(after_lines, pulses, lines)
}

// Pulses, flags and spectrum, with the edges of all bands, into lines that are 0.
fn read_coded(
    s: &Bits,
    at: usize,
    lookups: &ChannelLookups,
    edges: &[usize],
    index: u8,
    window: Window,
    books: &[u8; 120],
    lines: &mut [i16; 1024],
) -> Ended
    requires { (edges.now ≡ all_edges) × Bounded index window
        × (lines.old ≡ replicate 1024 (pos 0)) }
    ensures { HoldsLines result lines.new (reads (coded_of index window books.now) s.now at) }
{
    let part = part_of(index, window.sequence == 2);
    let own_edges = &edges[part.first..part.last];
    read_pulsed(s, at, lookups, own_edges, index, window, books, lines)
}

// The scale factors of all groups, into an array of zeros.
fn read_scale_factors(
    s: &Bits,
    at: usize,
    lookups: &ChannelLookups,
    index: u8,
    head: Head,
    books: &[u8; 120],
    factors: &mut [u8; 120],
) -> Ended
    requires { Bounded index head.window × (factors.old ≡ replicate 120 0) }
    ensures { ended_answer result factors.new ≡ reads (scale_factors head.gain head.window books.now) s.now at }
{
    let window = head.window;
    let groups = groups_of(window.sequence == 2, window.grouping);
    let n = groups.count * window.max_sfb as usize;
    read_factors(s, at, lookups, n, head.gain as u32, books, factors)
}

// The rest of a stream after its books, with the edges of all bands, into arrays of zeros.
#[tactic(auto, unfolding(crate::specs::Stream::stream_with))]
fn read_with_books(
    s: &Bits,
    at: usize,
    lookups: &ChannelLookups,
    edges: &[usize],
    index: u8,
    head: Head,
    books: &[u8; 120],
    factors: &mut [u8; 120],
    lines: &mut [i16; 1024],
) -> Ended
    requires { (edges.now ≡ all_edges) × Bounded index head.window
        × (factors.old ≡ replicate 120 0) × (lines.old ≡ replicate 1024 (pos 0)) }
    ensures { HoldsRest result head books.now factors.new lines.new (reads (stream_with index head books.now) s.now at) }
{
    let after_factors = read_scale_factors(s, at, lookups, index, head, books, factors)?;
    read_coded(
        s,
        after_factors,
        lookups,
        edges,
        index,
        head.window,
        books,
        lines,
    )
}

// The rest of a stream after its head, with the edges of all bands, into arrays of zeros.
#[tactic(auto, unfolding(crate::specs::Stream::stream_after))]
fn read_body(
    s: &Bits,
    at: usize,
    lookups: &ChannelLookups,
    edges: &[usize],
    index: u8,
    head: Head,
    books: &mut [u8; 120],
    factors: &mut [u8; 120],
    lines: &mut [i16; 1024],
) -> Ended
    requires { (edges.now ≡ all_edges) × Bounded index head.window
        × (books.old ≡ replicate 120 0) × (factors.old ≡ replicate 120 0) × (lines.old ≡ replicate 1024 (pos 0)) }
    ensures { HoldsRest result head books.new factors.new lines.new (reads (stream_after index head) s.now at) }
{
    let window = head.window;
    let short = window.sequence == 2;
    let after_books = read_books(
        s,
        at,
        short,
        window.max_sfb as usize,
        window.grouping,
        books,
    )?;
    read_with_books(
        s,
        after_books,
        lookups,
        edges,
        index,
        head,
        books,
        factors,
        lines,
    )
}

// A stream, with the edges of all bands, into arrays of zeros.
#[tactic(auto, unfolding(crate::specs::Stream::stream))]
fn read_stream(
    s: &Bits,
    at: usize,
    lookups: &ChannelLookups,
    edges: &[usize],
    index: u8,
    books: &mut [u8; 120],
    factors: &mut [u8; 120],
    lines: &mut [i16; 1024],
) -> Answer<Head>
    requires { (edges.now ≡ all_edges)
        × (books.old ≡ replicate 120 0) × (factors.old ≡ replicate 120 0) × (lines.old ≡ replicate 1024 (pos 0)) }
    ensures { HoldsStream result books.new factors.new lines.new (reads (stream index) s.now at) }
{
    let (head, after_head) = read_head(s, at, index)?;
    let next = read_body(
        s, after_head, lookups, edges, index, head, books, factors, lines,
    )?;
    Ok((head, next))
}

// A stream from a place to the end, into arrays of zeros; what is left after it is not judged.
pub fn read_from(
    s: &Bits,
    at: usize,
    index: u8,
    books: &mut [u8; 120],
    factors: &mut [u8; 120],
    lines: &mut [i16; 1024],
) -> Answer<Head>
    requires { (books.old ≡ replicate 120 0)
        × (factors.old ≡ replicate 120 0)
        × (lines.old ≡ replicate 1024 (pos 0)) }
    ensures { HoldsStream result books.new factors.new lines.new (reads (stream index) s.now at) }
{
    let lookups = tables::channel_lookups();
    let edges = channel_bands::bands::edges();
    read_stream(s, at, &lookups, &edges, index, books, factors, lines)
}

// A whole payload, into arrays of zeros: at most 7 bits are left after it. No stream goes further than 4,750 bytes, so that one byte
// more is enough to tell.
pub fn read_payload(
    s: &[u8],
    index: u8,
    books: &mut [u8; 120],
    factors: &mut [u8; 120],
    lines: &mut [i16; 1024],
) -> Answer<Head>
    requires { (books.old ≡ replicate 120 0)
        × (factors.old ≡ replicate 120 0)
        × (lines.old ≡ replicate 1024 (pos 0)) }
    ensures { HoldsStream result books.new factors.new lines.new (whole (stream index) s.now) }
{
    let end = 8 * s.len().min(4751);
    let near = Bits { bytes: s, end };
    let (head, next) = read_from(&near, 0, index, books, factors, lines)?;
    if 7 < end - next {
        return refused(12, next);
    }
    Ok((head, next))
}

// The lines of a channel stream, in window order.
ghost use Rattle.std.specs.Prelude.{◌≡◌, suc, ◌+◌, ◌*◌, ◌-◌, ◌<◌, ◌≤◌, length};
ghost use Rattle.bits.specs.Loop.{counted};
ghost use Rattle.bits.specs.InnerAnswers.{ended_answer, reads};
ghost use Rattle.channel_bands.specs.InnerBands.{Rising, window_lines, most_bands};
ghost use Rattle.channel_bands.specs.Grouping.{groups_after, groups_of};
ghost use Rattle.channel_words.specs.Books.{book_of};
ghost use Rattle.channel_words.specs.InnerWords.{BookLookup};
ghost use Rattle.channel_lines.specs.Spectrum.{band, windows_band, group_band, group_lines};

use bits::{Bits, Ended};
use channel_bands::grouping::group_length;
use channel_words::pairs::{read_signed_pairs, read_unsigned_pairs};
use channel_words::quads::{read_signed_quads, read_unsigned_quads};
use tables::ChannelLookups;

// A group of windows: where its books start, its first window, and how many windows it has.
#[derive(Clone, Copy)]
pub struct Group {
    base: usize,
    from: usize,
    windows: usize,
}

// The lines of a band of one window, which has the spectral book of a number and its lookup.
fn read_spectral_band(
    s: &Bits,
    at: usize,
    look: &[u16],
    bits: usize,
    number: u8,
    first: usize,
    width: usize,
    lines: &mut [i16; 1024],
) -> Ended
    requires { BookLookup look.now bits number × (1 ≤ number) × (number ≤ 11)
        × (first + width ≤ 1024) }
    ensures { ended_answer result lines.new ≡ reads (band (book_of number) first width lines.old) s.now at }
{
    if number <= 2 {
        return read_signed_quads(s, at, look, bits, first, width / 4, lines);
    }
    if number <= 4 {
        return read_unsigned_quads(s, at, look, bits, first, width / 4, lines);
    }
    if number <= 6 {
        return read_signed_pairs(s, at, look, bits, first, width / 2, lines);
    }
    if number <= 8 {
        return read_unsigned_pairs(s, at, look, bits, 8, first, width / 2, lines);
    }
    if number <= 10 {
        return read_unsigned_pairs(s, at, look, bits, 13, first, width / 2, lines);
    }
    read_unsigned_pairs(s, at, look, bits, 17, first, width / 2, lines)
}

// The lines of a band of one window, which has the book of a number; one that is not spectral sends none.
fn read_band(
    s: &Bits,
    at: usize,
    lookups: &ChannelLookups,
    number: u8,
    first: usize,
    width: usize,
    lines: &mut [i16; 1024],
) -> Ended
    requires { first + width ≤ 1024 }
    ensures { ended_answer result lines.new ≡ reads (band (book_of number) first width lines.old) s.now at }
{
    if number == 0 {
        return Ok(at);
    }
    if 11 < number {
        return Ok(at);
    }
    let lookup = lookups.of(number as usize);
    let look = &lookups.elements[lookup.first..lookup.last];
    read_spectral_band(s, at, look, lookup.bits, number, first, width, lines)
}

// A band of a book's number, in each window of a group.
fn read_windows(
    s: &Bits,
    at: usize,
    lookups: &ChannelLookups,
    number: u8,
    first: usize,
    width: usize,
    group: Group,
    lines: &mut [i16; 1024],
) -> Ended
    requires { 128 * (group.from + group.windows) + (first + width) ≤ 1152 }
    ensures { ended_answer result lines.new
        ≡ reads (windows_band number first width group.from group.windows lines.old) s.now at }
{
    let mut place = at;
    for v in group.from..group.from + group.windows {
        let line = 128 * v + first;
        place = read_band(s, place, lookups, number, line, width, lines)?;
    }
    Ok(place)
}

// The b-th band of a group of windows.
fn read_group_band(
    s: &Bits,
    at: usize,
    lookups: &ChannelLookups,
    edges: &[usize],
    books: &[u8; 120],
    group: Group,
    b: usize,
    lines: &mut [i16; 1024],
) -> Ended
    requires { Rising edges.now (1152 - 128 * (group.from + group.windows))
        × (suc b < length edges.now)
        × (group.base + b < 120)
        × (group.from + group.windows ≤ 8) }
    ensures { ended_answer result lines.new
        ≡ reads (group_band edges.now books.now group.base group.from group.windows b lines.old) s.now at }
{
    let number = books[group.base + b];
    let first = edges[b];
    let width = edges[b + 1] - first;
    read_windows(s, at, lookups, number, first, width, group, lines)
}

// The lines of a group of windows.
fn read_group(
    s: &Bits,
    at: usize,
    lookups: &ChannelLookups,
    edges: &[usize],
    max_sfb: usize,
    books: &[u8; 120],
    group: Group,
    lines: &mut [i16; 1024],
) -> Ended
    requires { Rising edges.now (1152 - 128 * (group.from + group.windows))
        × (max_sfb < length edges.now)
        × (group.base + max_sfb ≤ 120)
        × (group.from + group.windows ≤ 8) }
    ensures { ended_answer result lines.new
        ≡ reads (counted 0 max_sfb (group_band edges.now books.now group.base group.from group.windows) lines.old) s.now at }
{
    let mut place = at;
    for b in 0..max_sfb {
        place = read_group_band(s, place, lookups, edges, books, group, b, lines)?;
    }
    Ok(place)
}

// The lines of the groups of eight short windows.
fn read_groups(
    s: &Bits,
    at: usize,
    lookups: &ChannelLookups,
    edges: &[usize],
    max_sfb: usize,
    grouping: u8,
    books: &[u8; 120],
    lines: &mut [i16; 1024],
) -> Ended
    requires { Rising edges.now 128
        × (max_sfb < length edges.now)
        × (max_sfb ≤ 15) }
    ensures { ended_answer result lines.new
        ≡ reads (group_lines edges.now max_sfb books.now (groups_after 8 grouping) 0 0 lines.old) s.now at }
{
    let mut place = at;
    let mut base = 0;
    let mut from = 0;
    // A `while`: a turn for each group, whose windows are as many as its first bits tell
    while from < 8 {
        let windows = group_length(grouping, from);
        let group = Group {
            base,
            from,
            windows,
        };
        place = read_group(s, place, lookups, edges, max_sfb, books, group, lines)?;
        base += max_sfb;
        from += windows;
    }
    Ok(place)
}

// The lines of all groups: of eight short windows, or of one long one.
pub fn read_lines(
    s: &Bits,
    at: usize,
    lookups: &ChannelLookups,
    edges: &[usize],
    short: bool,
    max_sfb: usize,
    grouping: u8,
    books: &[u8; 120],
    lines: &mut [i16; 1024],
) -> Ended
    requires { Rising edges.now (window_lines short)
        × (max_sfb < length edges.now)
        × (max_sfb ≤ most_bands short) }
    ensures { ended_answer result lines.new
        ≡ reads (group_lines edges.now max_sfb books.now (groups_of short grouping) 0 0 lines.old) s.now at }
{
    if short {
        return read_groups(s, at, lookups, edges, max_sfb, grouping, books, lines);
    }
    let only = Group {
        base: 0,
        from: 0,
        windows: 1,
    };
    read_group(s, at, lookups, edges, max_sfb, books, only, lines)
}

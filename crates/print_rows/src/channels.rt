// What a channel payload holds.
ghost use Rattle.std.specs.Prelude.{◌≡◌, ◌*◌, ◌≤◌, length};
ghost use Rattle.print_lines.specs.InnerText.{HoldsLine};
ghost use Rattle.print_rows.specs.InnerChannelRows.{band_count, window_row, bands_row, books_row, factors_row, values_row};

use crate::lists;
use channel::Reading;
use print_lines::text;
use std::io;

// How many books and scale factors there are: so many bands in each group.
fn band_count(r: Reading) -> usize
    ensures { result ≡ band_count r }
{
    r.group_count as usize * r.max_sfb as usize
}

// The window information, with the windows of each group.
fn put_window(line: &mut [u8], r: Reading) -> usize
    requires { 16384 ≤ length line.old }
    ensures { HoldsLine line.old (window_row r) result line.new }
{
    let groups = r.groups;
    let at = text::put_form(
        line,
        0,
        b"  window # shape # max_sfb # groups",
        &[r.sequence as usize, r.shape as usize, r.max_sfb as usize],
    );
    lists::put_bytes(line, at, &groups, r.group_count as usize)
}

// A number for each band, after some words.
fn put_bands(line: &mut [u8], words: &[u8], r: Reading, bands: &[u8]) -> usize
    requires { (16384 ≤ length line.old) × (length words.now ≤ 16) × (length bands.now ≤ 120) }
    ensures { HoldsLine line.old (bands_row words.now r bands.now) result line.new }
{
    let at = text::put(line, 0, words);
    lists::put_bytes(line, at, bands, band_count(r))
}

// The books.
fn put_books(line: &mut [u8], r: Reading, books: &[u8]) -> usize
    requires { (16384 ≤ length line.old) × (length books.now ≤ 120) }
    ensures { HoldsLine line.old (books_row r books.now) result line.new }
{
    put_bands(line, b"  books", r, books)
}

// The scale factors.
fn put_factors(line: &mut [u8], r: Reading, factors: &[u8]) -> usize
    requires { (16384 ≤ length line.old) × (length factors.now ≤ 120) }
    ensures { HoldsLine line.old (factors_row r factors.now) result line.new }
{
    put_bands(line, b"  factors", r, factors)
}

// The lines.
fn put_values(line: &mut [u8], lines: &[i16]) -> usize
    requires { (16384 ≤ length line.old) × (length lines.now ≤ 1024) }
    ensures { HoldsLine line.old (values_row lines.now) result line.new }
{
    let at = text::put(line, 0, b"  values");
    lists::put_values(line, at, lines)
}

// The window information, the books and scale factors, and the lines.
pub fn print_reading(
    out: &impl Print,
    r: Reading,
    lines: &[i16],
    factors: &[u8],
    books: &[u8],
) -> io::Result<()>
    requires { (length lines.now ≤ 1024) × (length factors.now ≤ 120) × (length books.now ≤ 120) }
{
    let mut line = [0u8; 16384];
    let at = put_window(&mut line, r);
    text::write_line(out, &mut line, at)?;
    let at = put_books(&mut line, r, books);
    text::write_line(out, &mut line, at)?;
    let at = put_factors(&mut line, r, factors);
    text::write_line(out, &mut line, at)?;
    let at = put_values(&mut line, lines);
    text::write_line(out, &mut line, at)
}

// The sections: the book of each band.
ghost use Rattle.std.specs.Prelude.{◌≡◌, ◌+◌, ◌*◌, ◌-◌, ◌≤◌, ◌<◌, length};
ghost use Rattle.bits.specs.InnerAnswers.{answer_of, ended_answer, reads};
ghost use Rattle.channel_bands.specs.InnerBands.{most_bands};
ghost use Rattle.channel_bands.specs.Grouping.{groups_of};
ghost use Rattle.channel_side.specs.InnerAnswers.{covered_answer, Fits, Further};
ghost use Rattle.channel_side.specs.Sections.{section_length, section_book, fill, section, group_sections, group_books, width_of};

use bits::fields::at_most;
use bits::{Answer, Bits, Ended, refused};
use channel_bands::grouping;

// The length of a section that has room for so many bands.
#[tactic(auto, using(bits::proofs::Taken::field_below, crate::proofs::SectionLaws::length_laws))]
fn read_length(s: &Bits, at: usize, width: usize, room: u32) -> Answer<u32>
    requires { (1 ≤ width) × (width ≤ 5) × (room ≤ 63) }
    ensures { (answer_of result ≡ reads (section_length width room) s.now at) × Fits room result }
{
    let mut bands: u32 = 0;
    let mut place = at;
    // An increment goes on while all its bits are ones.
    loop {
        let (more, next) = s.field(place, width)?;
        bands += more;
        if bands == 0 || room < bands {
            return refused(22, place);
        }
        if more + 1 != 1u32 << width {
            return Ok((bands, next));
        }
        place = next;
    }
}

// The book of a section.
#[tactic(auto, unfolding(crate::specs::Sections::section_book))]
fn read_book(s: &Bits, at: usize) -> Answer<u32>
    ensures { answer_of result ≡ reads section_book s.now at }
{
    at_most(s.field(at, 4), 11, 23, at)
}

// n copies of a book are put from a place on.
fn fill_books(books: &mut [u8; 120], from: usize, n: usize, book: u8)
    requires { from + n ≤ 120 }
    ensures { books.new ≡ fill books.old from n book }
{
    books[from..from + n].fill(book);
}

// A section of a group whose bands start at a place of the books, of which so many are covered: how many then are.
#[tactic(auto, using(crate::proofs::SectionLaws::book_most), unfolding(crate::specs::Sections::section))]
fn read_section(
    s: &Bits,
    at: usize,
    width: usize,
    max_sfb: usize,
    base: usize,
    count: usize,
    books: &mut [u8; 120],
) -> Answer<usize>
    requires { (1 ≤ width) × (width ≤ 5) × (max_sfb ≤ 63) × (base + max_sfb ≤ 120) × (count < max_sfb) }
    ensures { (covered_answer result books.new
        ≡ reads (section width max_sfb base (record { count = count; books = books.old })) s.now at)
        × Further count max_sfb result }
{
    let (book, after_book) = read_book(s, at)?;
    let (bands, after_length) = read_length(s, after_book, width, (max_sfb - count) as u32)?;
    fill_books(books, base + count, bands as usize, book as u8);
    Ok((count + bands as usize, after_length))
}

// The sections of one group, whose bands start at a place of the books.
#[tactic(auto, using(crate::proofs::SectionLaws::group_laws))]
fn read_group(
    s: &Bits,
    at: usize,
    width: usize,
    max_sfb: usize,
    base: usize,
    books: &mut [u8; 120],
) -> Ended
    requires { (1 ≤ width) × (width ≤ 5) × (max_sfb ≤ 63) × (base + max_sfb ≤ 120) }
    ensures { ended_answer result books.new ≡ reads (group_sections width max_sfb base books.old) s.now at }
{
    let mut count = 0;
    let mut place = at;
    // Each turn covers the bands of its section.
    while count < max_sfb {
        let (covered, next) = read_section(s, place, width, max_sfb, base, count, books)?;
        count = covered;
        place = next;
    }
    Ok(place)
}

// The bits of an increment, for short or long windows.
#[tactic(auto, unfolding(crate::specs::Sections::width_of))]
fn width_of(short: bool) -> usize
    ensures { (result ≡ width_of short) × (1 ≤ result) × (result ≤ 5) }
{
    if short {
        return 3;
    }
    5
}

// The sections of all groups.
#[tactic(auto, using(crate::proofs::SectionLaws::books_laws))]
pub fn read_books(
    s: &Bits,
    at: usize,
    short: bool,
    max_sfb: usize,
    grouping: u8,
    books: &mut [u8; 120],
) -> Ended
    requires { max_sfb ≤ most_bands short }
    ensures { ended_answer result books.new
        ≡ reads (group_books (width_of short) max_sfb (groups_of short grouping) 0 books.old) s.now at }
{
    let width = width_of(short);
    let mut place = at;
    for group in 0..grouping::groups_of(short, grouping).count {
        place = read_group(s, place, width, max_sfb, group * max_sfb, books)?;
    }
    Ok(place)
}

// A tag image, answered in bytes: its header, the part that a payload is, and the parts of all payloads.
#![tactic(auto)]

ghost use Rattle.std.specs.Prelude.{◌≡◌, ◌++◌, ◌+◌, ◌*◌, ◌≤◌, length};
ghost use Rattle.bits.specs.Bytes.{word_of, over};
ghost use Rattle.image.specs.Image.{header_of};
ghost use Rattle.c_image.specs.ImageCalls.{parts_bytes, ReadHeaderPromise, FindPartPromise, FindPartsPromise};

use bits::bytes;

// Two words are put at a place of a lent answer.
fn put_words(answer: &mut [u8], at: usize, first: usize, second: usize)
    requires { at + 8 ≤ length answer.old }
    ensures { answer.new ≡ over answer.old at (word_of first ++ word_of second) }
{
    let low = bytes::word_of(first);
    bytes::put(answer, at, &low);
    let high = bytes::word_of(second);
    bytes::put(answer, at + 4, &high);
}

// The parts of an image's payloads are put at the front of a lent answer, one after another. Its header has this count.
fn put_parts(answer: &mut [u8], image: &[u8], count: usize)
    requires { (count ≤ 1024) × (8 * count ≤ length answer.old)
        × ((header_of image.now).number ≡ 0) × ((header_of image.now).count ≡ count) }
    ensures { answer.new ≡ over answer.old 0 (parts_bytes image.now count) }
{
    for k in 0..count {
        let part = image::known_part(image, k);
        put_words(answer, 8 * k, part.start, part.end);
    }
}

// The header of an image: a lent answer gets the payload count and the sampling index.
pub fn oarcradler_read_header(image: &[u8], answer: &mut [u8]) -> u32
    ensures { ReadHeaderPromise image.now answer.old result answer.new }
{
    if answer.len() < 8 {
        return 2;
    }
    let header = image::read_header(image);
    if header.number != 0 {
        return header.number as u32;
    }
    put_words(answer, 0, header.count, header.index as usize);
    0
}

// The part of an image that its k-th payload is: a lent answer gets where it starts and where it ends.
pub fn oarcradler_find_part(image: &[u8], k: u32, answer: &mut [u8]) -> u32
    ensures { FindPartPromise image.now k answer.old result answer.new }
{
    if answer.len() < 8 {
        return 2;
    }
    let part = image::part_of(image, k as usize);
    if part.number != 0 {
        return part.number as u32;
    }
    put_words(answer, 0, part.start, part.end);
    0
}

// The parts of all payloads of an image: a lent answer gets of each where it starts and where it ends. The header is judged once.
pub fn oarcradler_find_parts(image: &[u8], answer: &mut [u8]) -> u32
    ensures { FindPartsPromise image.now answer.old result answer.new }
{
    let header = image::header_for(image, 8, answer.len());
    if header.number != 0 {
        return header.number as u32;
    }
    put_parts(answer, image, header.count);
    0
}

// The tag image: its header, and the part of it that each payload is.
#![tactic(auto)]

ghost use Rattle.std.specs.Prelude.{◌≡◌, ◌+◌, ◌*◌, ◌<◌, ◌≤◌, true, length};
ghost use Rattle.image.specs.Image.{pair_at, rising, sound_image, header_of, header_for, refused_header, refused_part, part_of};
ghost use Rattle.image.specs.Image.{HeaderPromise, PartPromise};

// What an image's header says: a refusal's number, or 0 with the payload count and the sampling index. A record with a number, as the
// promise's `header_of` is of it.
#[derive(Clone, Copy)]
pub struct Header {
    pub number: u8,
    pub count: usize,
    pub index: u8,
}

// Where a payload stands in an image: a refusal's number, or 0 with its range of bytes. A record with a number, as the promise's `part_of`
// is of it.
#[derive(Clone, Copy)]
pub struct Part {
    pub number: u8,
    pub start: usize,
    pub end: usize,
}

fn wide(x: u8) -> usize
    ensures { (result ≡ x) × (result < 256) }
{
    x as usize
}

// The pair of bytes at a place.
fn pair_at(image: &[u8], i: usize) -> usize
    requires { i + 1 < length image.now }
    ensures { (result ≡ pair_at image.now i) × (result ≤ 65535) }
{
    wide(image[i]) * 256 + wide(image[i + 1])
}

// Whether none of the n offsets after the first is before the one that it follows.
fn is_rising(image: &[u8], n: usize) -> bool
    requires { (2 * n + 6 ≤ length image.now) × (n ≤ 1024) }
    ensures { result ≡ rising image.now 0 n }
{
    for k in 0..n {
        if pair_at(image, 2 * k + 6) < pair_at(image, 2 * k + 4) {
            return false;
        }
    }
    true
}

// Whether everything in the header but the sampling index is as it has to be.
fn is_sound(image: &[u8]) -> bool
    ensures { result ≡ sound_image image.now }
{
    let size = image.len();
    if 65535 < size {
        return false;
    }
    if size < 6 {
        return false;
    }
    let count = pair_at(image, 0);
    if count % 2 != 0 {
        return false;
    }
    if 1024 < count {
        return false;
    }
    if size < 2 * count + 6 {
        return false;
    }
    if pair_at(image, 4) != 2 * count + 6 {
        return false;
    }
    if !is_rising(image, count) {
        return false;
    }
    pair_at(image, 2 * count + 4) == size
}

// A header that is refused.
fn refused_header(number: u8) -> Header
    ensures { result ≡ refused_header number }
{
    Header {
        number,
        count: 0,
        index: 0,
    }
}

// The header of an image of which all but the sampling index is as it has to be: 3 where no stream has that index.
fn sound_header(image: &[u8]) -> Header
    requires { sound_image image.now ≡ true }
    ensures { result ≡ header_of image.now }
{
    let index = pair_at(image, 2);
    if !bits::calls::is_known_index(index) {
        return refused_header(3);
    }
    Header {
        number: 0,
        count: pair_at(image, 0),
        index: index as u8,
    }
}

// The header of an image: 5, then 3.
pub fn read_header(image: &[u8]) -> Header
    ensures { HeaderPromise image.now result }
{
    if is_sound(image) {
        return sound_header(image);
    }
    refused_header(5)
}

// The header of an image, for a lent output with some room, of which each payload takes so much: 5, then 2, then 3.
pub fn header_for(image: &[u8], each: usize, room: usize) -> Header
    requires { each ≤ 8 }
    ensures { result ≡ header_for each image.now room }
{
    if !is_sound(image) {
        return refused_header(5);
    }
    if room < each * pair_at(image, 0) {
        return refused_header(2);
    }
    sound_header(image)
}

// The part of an image that a payload is which it has: its header is not judged again. The part lies in the image.
pub fn known_part(image: &[u8], k: usize) -> Part
    requires { (part_of image.now k).number ≡ 0 }
    ensures { PartPromise image.now k result }
{
    Part {
        number: 0,
        start: pair_at(image, 2 * k + 4),
        end: pair_at(image, 2 * k + 6),
    }
}

// A part that is refused.
fn refused_part(number: u8) -> Part
    ensures { result ≡ refused_part number }
{
    Part {
        number,
        start: 0,
        end: 0,
    }
}

// The part of an image that its k-th payload is; 1 where there is none. It lies in the image.
pub fn part_of(image: &[u8], k: usize) -> Part
    ensures { PartPromise image.now k result }
{
    let header = read_header(image);
    if header.number != 0 {
        return refused_part(header.number);
    }
    if header.count <= k {
        return refused_part(1);
    }
    known_part(image, k)
}

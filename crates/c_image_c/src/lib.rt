// The exports of c_image for a program in C.
#![tactic(auto)]

ghost use Rattle.c_image.specs.ImageCalls.{ReadHeaderPromise, FindPartPromise, FindPartsPromise};

// The header of an image: a lent answer gets the payload count and the sampling index.
#[unsafe(no_mangle)]
pub extern "C" fn oarcradler_read_header(image: &[u8], answer: &mut [u8]) -> u32
    ensures { ReadHeaderPromise image.now answer.old result answer.new }
{
    c_image::oarcradler_read_header(image, answer)
}

// The part of an image that its k-th payload is: a lent answer gets where it starts and where it ends.
#[unsafe(no_mangle)]
pub extern "C" fn oarcradler_find_part(image: &[u8], k: u32, answer: &mut [u8]) -> u32
    ensures { FindPartPromise image.now k answer.old result answer.new }
{
    c_image::oarcradler_find_part(image, k, answer)
}

// The parts of all payloads of an image: a lent answer gets of each where it starts and where it ends. The header is judged once.
#[unsafe(no_mangle)]
pub extern "C" fn oarcradler_find_parts(image: &[u8], answer: &mut [u8]) -> u32
    ensures { FindPartsPromise image.now answer.old result answer.new }
{
    c_image::oarcradler_find_parts(image, answer)
}

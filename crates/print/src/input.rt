// Standard input, read to its end.
ghost use Rattle.std.specs.Prelude.{IfOk};
ghost use Rattle.io.specs.Counts.{IsPrefixLen};

use std::io::{self, Read};

// Standard input, read to its end or until the buffer is full: how many bytes were read.
pub fn read_input(input: &mut impl Read, buffer: &mut [u8]) -> io::Result<usize>
    ensures { IfOk result (λ size. IsPrefixLen size buffer.new) }
{
    let mut size = 0;
    // A `while`, as a read brings as many bytes as there are.
    while size < buffer.len() {
        let more = input.read(&mut buffer[size..])?;
        if more == 0 {
            return Ok(size);
        }
        size += more;
    }
    Ok(size)
}

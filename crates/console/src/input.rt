// Standard input. No contract sees what a read puts into a buffer: these say that the count is at most
// the buffer's length.
ghost use Rattle.console.specs.Counts.{IsPrefixLen};

use std::io::{Read, Stdin};

// Reads until the buffer is full, the input ends or a read fails, and answers how many bytes lie at the
// buffer's start. Each read is into the part that is left, so that no byte is ever put elsewhere. Where a read fails, the
// bytes before it stay, so `read_full` of script does not serve.
pub(crate) fn fill(from: &mut Stdin, buffer: &mut [u8]) -> usize
    ensures { IsPrefixLen result buffer.new }
{
    let mut done = 0;
    while done < buffer.len() {
        let more = read_some(from, &mut buffer[done..]);
        if more == 0 {
            return done;
        }
        done += more;
    }
    done
}

// One read: how many bytes lie at the part's start, and 0 where the input ends or the read fails. A `match`, as the law
// `calls` lists the read of std alone.
fn read_some(from: &mut Stdin, part: &mut [u8]) -> usize
    ensures { IsPrefixLen result part.new }
{
    match from.read(part) {
        Ok(got) => got,
        Err(_) => 0,
    }
}

// An input, read to its end.
ghost use Rattle.std.specs.Prelude.{◌≡◌, ◌≤◌, length, take};
ghost use Rattle.descriptors.specs.Transfers.{Room, Held};

use crate::transfers::{INTERRUPTIONS, Transfer};
use std::io;
use std::io::Read;

// One call: it reads behind the first `done` bytes, which stay.
fn read_on<R: Read>(input: &mut R, buffer: &mut [u8], done: usize) -> Transfer
    requires { done ≤ length buffer.old }
    ensures stays { take done buffer.new ≡ take done buffer.old }
    ensures fits { Room result done (length buffer.old) }
{
    Transfer::from(input.read(&mut buffer[done..]))
}

// Reads until the input ends or the buffer is full: how many bytes there are, or why they could not be read. Then nothing is known of what is missing,
// and what came is not to be used. Only a call that answers 0 is the end; a call that would have to wait, on an input that does not wait, fails like
// any other.
pub fn read_input<R: Read>(input: &mut R, buffer: &mut [u8]) -> io::Result<usize>
    ensures { Held result buffer.new }
{
    let mut done: usize = 0;
    let mut left = INTERRUPTIONS;
    while done < buffer.len() {
        match read_on(input, buffer, done) {
            Transfer::Bytes(n) => done += n,
            Transfer::Nothing => return Ok(done),
            Transfer::Interrupted(_) if 0 < left => left -= 1,
            Transfer::Interrupted(e) | Transfer::Failed(e) => return Err(e),
        }
    }
    Ok(done)
}

// Bytes written to an output, all of them.
ghost use Rattle.std.specs.Prelude.{◌⊎◌, ◌≤◌, ◌<◌, length, IsOk};
ghost use Rattle.descriptors.specs.Transfers.{Room};

use crate::transfers::{INTERRUPTIONS, Transfer};
use std::io;
use std::io::{ErrorKind, Write};

// One call: it writes what stands behind the first `done` bytes.
fn write_on<W: Write>(out: &mut W, bytes: &[u8], done: usize) -> Transfer
    requires { done ≤ length bytes.now }
    ensures fits { Room result done (length bytes.now) }
{
    Transfer::from(out.write(&bytes[done..]))
}

// Writes all bytes: of none it cannot fail. A call that takes none of them fails; where this fails, some may have been written.
pub fn write_whole<W: Write>(out: &mut W, bytes: &[u8]) -> io::Result<()>
    ensures { IsOk result ⊎ (0 < length bytes.now) }
{
    let mut done: usize = 0;
    let mut left = INTERRUPTIONS;
    while done < bytes.len() {
        match write_on(out, bytes, done) {
            Transfer::Bytes(n) => done += n,
            Transfer::Nothing => return Err(io::Error::from(ErrorKind::WriteZero)),
            Transfer::Interrupted(_) if 0 < left => left -= 1,
            Transfer::Interrupted(e) | Transfer::Failed(e) => return Err(e),
        }
    }
    Ok(())
}

// What one call of a reader or a writer did, by what it answered.
ghost use Rattle.std.specs.Prelude.{◌≡◌};
ghost use Rattle.descriptors.specs.Transfers.{transfer_of};

use std::io;

// Interrupted calls that are made again, in one reading or writing. Nothing here may loop forever, so one more is a failure.
pub const INTERRUPTIONS: usize = 1_000_000;

// The number of the error of a call that a signal interrupted, and of one that would have to wait.
pub const EINTR: i32 = 4;

pub const EAGAIN: i32 = 11;

// A call moved bytes, at least one; it moved none, which is the end of an input; a signal interrupted it before it moved any; or it failed.
#[derive(Clone, Copy)]
pub enum Transfer {
    Bytes(usize),
    Nothing,
    Interrupted(io::Error),
    Failed(io::Error),
}

// By the error's number, not by its kind: only the system can say that a signal interrupted a call.
impl From<io::Result<usize>> for Transfer {
    ghost from_gives = { λ answer transfer. transfer ≡ transfer_of answer };

    fn from(answer: io::Result<usize>) -> Transfer {
        match answer {
            Ok(0) => Transfer::Nothing,
            Ok(n) => Transfer::Bytes(n),
            Err(e) if e.raw_os_error() == Some(EINTR) => Transfer::Interrupted(e),
            Err(e) => Transfer::Failed(e),
        }
    }
}

// What is kept of a directory.
ghost use Rattle.std.specs.Prelude.{◌≡◌};
ghost use Rattle.refusals.specs.Kept.{nothing_kept};

use identifiers::names::NAMES;
use index::places::INDEX;

// The numbers of its index, and the bytes of its identifiers.
#[derive(Drop)]
pub struct Kept {
    pub numbers: [u16; INDEX],
    pub names: [u8; NAMES],
}

impl Kept {
    // Of the empty directory.
    pub fn nothing() -> Kept
        ensures { result ≡ nothing_kept }
    {
        Kept {
            numbers: [0; INDEX],
            names: [0; NAMES],
        }
    }
}

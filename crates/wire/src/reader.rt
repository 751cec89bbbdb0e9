// The reader of a command stream: the lent bytes, and the place where it stands. Its methods are thin and leave the work to the other modules;
// callers use `next_in`, whose parameters are plain.
ghost use Rattle.std.specs.Prelude.{◌≡◌};
ghost use Rattle.wire.specs.Commands.{found, next_at};

use crate::commands::Next;

#[derive(Drop)]
pub struct Reader<'a> {
    pub src: &'a [u8],
    pub at: usize,
}

impl<'a> Reader<'a> {
    pub fn stand(src: &'a [u8], at: usize) -> Reader<'a>
        ensures { (result.src ≡ src.entry) × (result.at ≡ at) }
    {
        Reader { src, at }
    }

    pub fn next(self) -> Next
        ensures { found result ≡ next_at self.entry.src.now self.entry.at }
    {
        crate::commands::next_at(self.src, self.at)
    }
}

pub fn next_in(src: &[u8], at: usize) -> Next
    ensures { found result ≡ next_at src.now at }
{
    Reader::stand(src, at).next()
}

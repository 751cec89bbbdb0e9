// Bytes behind a text, where there is room for them.
ghost use Rattle.std.specs.Prelude.{◌≡◌, ◌+◌, ◌≤◌, length};
ghost use Rattle.text.specs.Appended.{Appended};

pub(crate) fn put_bytes<const N: usize>(out: &mut [u8], at: usize, bytes: &[u8; N]) -> usize
    requires { at + N ≤ length out.old }
    ensures { Appended out.old at out.new result bytes.now × (result ≡ at + N) }
{
    for (i, byte) in bytes.iter().enumerate() {
        out[at + i] = *byte;
    }
    at + N
}

// One signed number of a list, read.
ghost use Rattle.std.specs.Prelude.{◌≡◌, pos, get_or};

// The number at k, and 0 behind the end.
pub(crate) fn read_at(list: &[i64], k: usize) -> i64
    ensures { result ≡ get_or list.now k (pos 0) }
{
    list.get(k).copied().unwrap_or(0)
}

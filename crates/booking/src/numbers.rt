// A change of one signed number of a list.
ghost use Rattle.std.specs.Prelude.{◌≡◌, true, ◌<◌, pos, ◌+ℤ◌, length, get_or, set};
ghost use Rattle.std.specs.Int.{w64};
ghost use Rattle.std.proofs.Common.{SFits};

// z more at k; behind the end nothing changes. Where k is known to be within the list it is not tested.
pub(crate) fn add_at<const WITHIN: bool>(list: &mut [i64], k: usize, z: i64)
    requires { (WITHIN ≡ true → k < length list.old) × SFits w64 (get_or list.old k (pos 0) +ℤ z) }
    ensures { list.new ≡ set list.old k (get_or list.old k (pos 0) +ℤ z) }
{
    if WITHIN || k < list.len() {
        list[k] = list[k] + z;
    }
}

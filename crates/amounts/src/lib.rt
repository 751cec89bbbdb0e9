// Signed numbers held against a count, and against ±10^15 once the count is added or taken. The sum of the two stops at the ends of i64, which are beyond ±10^15,
// so that every answer holds for every i64 and every u64.
#![tactic(auto)]

ghost use Rattle.std.specs.Prelude.{◌≡◌, pos, neg_ℤ, nat_abs, ◌+ℤ◌};
ghost use Rattle.std.specs.Int.Signed.{lt_z};
ghost use Rattle.rules.specs.Booking.{beyond};

use rules::LIMIT;

// How far x is from 0.
pub fn magnitude(x: i64) -> u64
    ensures { result ≡ nat_abs x }
{
    x.unsigned_abs()
}

// Whether x is below n.
pub fn is_below(x: i64, n: u64) -> bool
    ensures { result ≡ lt_z x (pos n) }
{
    x < 0 || (x as u64) < n
}

// Whether x is beyond ±10^15.
#[tactic(auto, unfolding(rules::specs::Booking::beyond))]
pub fn is_beyond(x: i64) -> bool
    ensures { result ≡ beyond x }
{
    LIMIT < magnitude(x)
}

// Whether x with n more is beyond ±10^15.
pub fn more_beyond(x: i64, n: u64) -> bool
    ensures { result ≡ beyond (x +ℤ pos n) }
{
    is_beyond(x.saturating_add_unsigned(n))
}

// Whether x with n less is beyond ±10^15.
pub fn less_beyond(x: i64, n: u64) -> bool
    ensures { result ≡ beyond (x +ℤ neg_ℤ (pos n)) }
{
    is_beyond(x.saturating_sub_unsigned(n))
}

// Positions in units of securities: where they lie, and what they hold.
#![tactic(auto, unfolding(rules::specs::Booking::position))]

ghost use Rattle.std.specs.Prelude.{◌≡◌};
ghost use Rattle.rules.specs.Booking;
ghost use Rattle.rules.specs.Booking.{position};

use crate::numbers::read_at;
use rules::{SECURITIES, Units};

// "at account × 16 + security"
pub fn place(security: u8, account: u16) -> usize
    ensures { result ≡ Booking.place security account }
{
    usize::from(account) * SECURITIES + usize::from(security)
}

// The position of the account in the security.
pub(crate) fn position_of(positions: &[i64], security: u8, account: u16) -> Units
    ensures { result ≡ position positions.now security account }
{
    Units(read_at(positions, place(security, account)))
}

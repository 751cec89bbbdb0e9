// Positions in units of securities: a step's change of them.
#![tactic(auto, unfolding(rules::specs::Booking::position, rules::specs::Booking::add_units, rules::specs::Booking::moved))]

ghost use Rattle.std.specs.Prelude.{◌≡◌, ◌≤◌};
ghost use Rattle.std.specs.Int.{w64};
ghost use Rattle.std.proofs.Common.{SFits};
ghost use Rattle.rules.specs.Booking.{limit, position, add_units, plus_units, moved};
ghost use Rattle.booking.specs.Room.{Room};

use crate::numbers::add_at;
use crate::way::Way;
use holdings::judging::Lot;
use holdings::positions::place;
use rules::{Step, Units};

// z units more on the account in the security.
fn add_units(positions: &mut [i64], security: u8, account: u16, z: Units)
    requires { SFits w64 (plus_units (position positions.old security account) z).0 }
    ensures { positions.new ≡ add_units positions.old security account z }
{
    add_at::<false>(positions, place(security, account), z.0);
}

// One step: the lot from the account debited to the account credited.
pub(crate) fn move_units(positions: &mut [i64], lot: Lot, step: Step)
    requires { (lot.quantity ≤ limit) × Room positions.old lot.security lot.quantity step }
    ensures { positions.new ≡ moved step lot.security lot.quantity positions.old }
{
    let down = Units(Way::Outgoing.signed(lot.quantity));
    let up = Units(Way::Incoming.signed(lot.quantity));
    add_units(positions, lot.security, step.debited, down);
    add_units(positions, lot.security, step.credited, up);
}

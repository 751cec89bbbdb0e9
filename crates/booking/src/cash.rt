// Cash in cents, by account: a payment. "amount 0 touches none".
#![tactic(auto, unfolding(rules::specs::Booking::balance, rules::specs::Booking::add_cents, rules::specs::Booking::paid))]

ghost use Rattle.std.specs.Prelude.{◌≡◌, false, ◌≤◌};
ghost use Rattle.std.specs.Int.{w64};
ghost use Rattle.std.proofs.Common.{SFits};
ghost use Rattle.rules.specs.Booking.{limit, balance, plus_cents, add_cents, payment_beyond, paid};

use crate::numbers::add_at;
use crate::way::Way;
use holdings::cash::Payment;
use rules::Cents;

// z cents more on the account.
pub(crate) fn add_cents(cash: &mut [i64], account: u16, z: Cents)
    requires { SFits w64 (plus_cents (balance cash.old account) z).0 }
    ensures { cash.new ≡ add_cents cash.old account z }
{
    add_at::<false>(cash, usize::from(account), z.0);
}

// "Receiving cash pays delivering cash; amount 0 touches none", once 22 lets it pass.
pub(crate) fn pay(cash: &mut [i64], payment: Payment)
    requires { (payment.amount ≤ limit) × (payment_beyond cash.old payment.payer payment.payee payment.amount ≡ false) }
    ensures { cash.new ≡ paid cash.old payment.payer payment.payee payment.amount }
{
    if payment.amount == 0 {
        return;
    }
    let down = Cents(Way::Outgoing.signed(payment.amount));
    let up = Cents(Way::Incoming.signed(payment.amount));
    add_cents(cash, payment.payer, down);
    add_cents(cash, payment.payee, up);
}

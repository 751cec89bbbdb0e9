// Cash in cents, by account: "cash short", and what ends beyond ±10^15. "amount 0 touches none".
#![tactic(auto, unfolding(rules::specs::Booking::balance, rules::specs::Booking::cash_short, rules::specs::Booking::cash_beyond, rules::specs::Booking::payment_beyond))]

ghost use Rattle.std.specs.Prelude.{◌≡◌};
ghost use Rattle.rules.specs.Booking.{balance, cents, less_cents, cash_short, cash_beyond, payment_beyond};

use crate::numbers::read_at;
use amounts::{is_below, less_beyond, more_beyond};
use rules::Cents;

// The balance of the account.
pub(crate) fn balance_of(cash: &[i64], account: u16) -> Cents
    ensures { result ≡ balance cash.now account }
{
    Cents(read_at(cash, usize::from(account)))
}

// 21: the balance that pays is below the amount.
pub fn cash_short(cash: &[i64], account: u16, amount: u64) -> bool
    ensures { result ≡ cash_short cash.now account amount }
{
    if amount == 0 {
        return false;
    }
    let paying = balance_of(cash, account);
    is_below(paying.0, amount)
}

// 22 of the account that receives the amount.
pub fn receipt_beyond(cash: &[i64], account: u16, amount: u64) -> bool
    ensures { result ≡ cash_beyond cash.now account (cents amount) }
{
    let held = balance_of(cash, account);
    more_beyond(held.0, amount)
}

// 22 of the account that pays the amount.
pub fn payout_beyond(cash: &[i64], account: u16, amount: u64) -> bool
    ensures { result ≡ cash_beyond cash.now account (less_cents (cents amount)) }
{
    let held = balance_of(cash, account);
    less_beyond(held.0, amount)
}

// "Receiving cash pays delivering cash": so many cents from one account to another.
#[derive(Clone, Copy)]
pub struct Payment {
    pub payer: u16,
    pub payee: u16,
    pub amount: u64,
}

impl Payment {
    // 21: the payer's balance is below the amount.
    pub fn short(self, cash: &[i64]) -> bool
        ensures { result ≡ cash_short cash.now self.payer self.amount }
    {
        cash_short(cash, self.payer, self.amount)
    }

    // 22 of both.
    pub fn beyond(self, cash: &[i64]) -> bool
        ensures { result ≡ payment_beyond cash.now self.payer self.payee self.amount }
    {
        self.amount != 0
            && (payout_beyond(cash, self.payer, self.amount)
                | receipt_beyond(cash, self.payee, self.amount))
    }
}

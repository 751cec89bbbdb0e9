// Pay in and pay out: they change a participant account's cash.
ghost use Rattle.std.specs.Prelude.{◌≡◌};
ghost use Rattle.rules.specs.Tests.{first_of};
ghost use Rattle.rules.specs.Numbers.{refused_by, accepted_by};
ghost use Rattle.rules.specs.Booking.{payment, pay_short, cash_beyond, pay_conditions};
ghost use Rattle.index.specs.Asked.{asked};
ghost use Rattle.booking.specs.Moves.{way_of};
ghost use Rattle.booking.specs.Payments.{pay_outcome};

use crate::cash::add_cents;
use crate::first_refusal::out_of_range;
use crate::way::Way;
use holdings::cash::{cash_short, payout_beyond, receipt_beyond};
use index::lookups::{is_account, is_kind};
use index::places::INDEX;
use rules::{Cents, PARTICIPANT, Refusal};

// 21: what is paid out must be there.
fn pay_short(cash: &[i64], way: Way, account: u16, amount: u64) -> bool
    ensures { result ≡ pay_short (way_of way) cash.now account amount }
{
    match way {
        Way::Incoming => false,
        Way::Outgoing => cash_short(cash, account, amount),
    }
}

// 22: the balance ends beyond ±10^15.
fn pay_beyond(cash: &[i64], way: Way, account: u16, amount: u64) -> bool
    ensures { result ≡ cash_beyond cash.now account (payment (way_of way) amount) }
{
    match way {
        Way::Incoming => receipt_beyond(cash, account, amount),
        Way::Outgoing => payout_beyond(cash, account, amount),
    }
}

// 6 to 22, judged on the cash as it is lent.
fn pay_refusal(
    index: &[u16; INDEX],
    cash: &[i64],
    way: Way,
    account: u16,
    amount: u64,
) -> Result<(), Refusal>
    ensures { refused_by result ≡ first_of (pay_conditions (asked index.now) cash.now (way_of way) account amount) }
{
    if !is_account(index, account) {
        return Err(Refusal::NoRow);
    }
    if out_of_range(amount) {
        return Err(Refusal::OutOfRange);
    }
    if !is_kind(index, account, PARTICIPANT) {
        return Err(Refusal::WrongAccount);
    }
    if pay_short(cash, way, account, amount) {
        return Err(Refusal::CashShort);
    }
    if pay_beyond(cash, way, account, amount) {
        return Err(Refusal::Beyond);
    }
    Ok(())
}

// A pay-in or pay-out: judged, then booked.
pub fn move_cash(
    index: &[u16; INDEX],
    cash: &mut [i64],
    way: Way,
    account: u16,
    amount: u64,
) -> Result<(), Refusal>
    ensures answer { accepted_by result ≡ (pay_outcome (asked index.now) cash.old (way_of way) account amount).answer }
    ensures cash { cash.new ≡ (pay_outcome (asked index.now) cash.old (way_of way) account amount).cash }
{
    pay_refusal(index, cash, way, account, amount)?;
    add_cents(cash, account, Cents(way.signed(amount)));
    Ok(())
}

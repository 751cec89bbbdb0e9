// Positions and cash: bring in, take out, pay in, pay out, and the totals.
ghost use Rattle.std.specs.Prelude.{◌≡◌};
ghost use Rattle.rules.specs.Numbers.{accepted_by};
ghost use Rattle.rules.specs.Booking.{incoming, outgoing, units_found, cents_found};
ghost use Rattle.rules.specs.Calls.{desk_security_total, desk_cash_total};
ghost use Rattle.booking.specs.Moves.{way_of};
ghost use Rattle.rules.specs.Outcomes.{movement_on, payment_on};

use crate::admit;
use booking::moves::move_securities;
use booking::payments::move_cash;
use booking::way::Way;
use holdings::totals;
use refusals::Kept;
use rules::{ACCOUNTS, Answer, Cents, Directory, POSITIONS, Refusal, Units};

// A bring-in or take-out, by the links of the day.
fn movement(
    directory: Directory,
    positions: &mut [i64],
    way: Way,
    account: u16,
    security: u8,
    quantity: u64,
    day: u16,
) -> Result<(), Refusal>
    ensures answer { accepted_by result ≡ (movement_on directory positions.old (way_of way) account security quantity day).answer }
    ensures positions { positions.new ≡ (movement_on directory positions.old (way_of way) account security quantity day).store.positions }
{
    let mut kept = Kept::nothing();
    admit(positions.len() != POSITIONS, directory, &mut kept)?;
    move_securities(
        &kept.numbers,
        positions,
        way,
        account,
        security,
        quantity,
        day,
    )
}

// Credits a participant account from its CSD's issuance or inter-CSD account, by the links of the day.
pub fn bring_in(
    directory: Directory,
    positions: &mut [i64],
    account: u16,
    security: u8,
    quantity: u64,
    day: u16,
) -> Answer
    ensures { (result ≡ (movement_on directory positions.old incoming account security quantity day).answer)
        × (positions.new ≡ (movement_on directory positions.old incoming account security quantity day).store.positions) }
{
    Answer::from(movement(
        directory,
        positions,
        Way::Incoming,
        account,
        security,
        quantity,
        day,
    ))
}

// The reverse.
pub fn take_out(
    directory: Directory,
    positions: &mut [i64],
    account: u16,
    security: u8,
    quantity: u64,
    day: u16,
) -> Answer
    ensures { (result ≡ (movement_on directory positions.old outgoing account security quantity day).answer)
        × (positions.new ≡ (movement_on directory positions.old outgoing account security quantity day).store.positions) }
{
    Answer::from(movement(
        directory,
        positions,
        Way::Outgoing,
        account,
        security,
        quantity,
        day,
    ))
}

// A pay-in or pay-out.
fn payment(
    directory: Directory,
    cash: &mut [i64],
    way: Way,
    account: u16,
    amount: u64,
) -> Result<(), Refusal>
    ensures answer { accepted_by result ≡ (payment_on directory cash.old (way_of way) account amount).answer }
    ensures cash { cash.new ≡ (payment_on directory cash.old (way_of way) account amount).store.cash }
{
    let mut kept = Kept::nothing();
    admit(cash.len() != ACCOUNTS, directory, &mut kept)?;
    move_cash(&kept.numbers, cash, way, account, amount)
}

// Adds to a participant account's cash.
pub fn pay_in(directory: Directory, cash: &mut [i64], account: u16, amount: u64) -> Answer
    ensures { (result ≡ (payment_on directory cash.old incoming account amount).answer)
        × (cash.new ≡ (payment_on directory cash.old incoming account amount).store.cash) }
{
    Answer::from(payment(directory, cash, Way::Incoming, account, amount))
}

// The reverse.
pub fn pay_out(directory: Directory, cash: &mut [i64], account: u16, amount: u64) -> Answer
    ensures { (result ≡ (payment_on directory cash.old outgoing account amount).answer)
        × (cash.new ≡ (payment_on directory cash.old outgoing account amount).store.cash) }
{
    Answer::from(payment(directory, cash, Way::Outgoing, account, amount))
}

// The sum of participant positions in a security.
pub fn security_total(
    directory: Directory,
    positions: &[i64],
    security: u8,
) -> Result<Units, Refusal>
    ensures { units_found result ≡ desk_security_total directory positions.now security }
{
    let mut kept = Kept::nothing();
    admit(positions.len() != POSITIONS, directory, &mut kept)?;
    totals::security_total(&kept.numbers, positions, security)
}

// The sum of all balances.
pub fn cash_total(cash: &[i64]) -> Result<Cents, Refusal>
    ensures { cents_found result ≡ desk_cash_total cash.now }
{
    if cash.len() != ACCOUNTS {
        return Err(Refusal::LentList);
    }
    totals::cash_total(cash)
}

// Bring in and take out: one step between a participant account and the account against which its CSD holds the security.
ghost use Rattle.std.specs.Prelude.{◌≡◌, cond, ◌≤◌, eqb};
ghost use Rattle.std.proofs.Math.Option.{some};
ghost use Rattle.rules.specs.Tests.{first_of};
ghost use Rattle.rules.specs.Numbers.{refused_by, accepted_by};
ghost use Rattle.rules.specs.Booking.{limit, inter_csd, contra, move_step, moved};
ghost use Rattle.index.specs.Asked.{asked, asked_on};
ghost use Rattle.booking.specs.Moves.{way_of, contra_found, operand_conditions, step_conditions, move_outcome};

use crate::first_refusal::{book_refusal, out_of_range};
use crate::positions::move_units;
use crate::way::Way;
use holdings::judging::Lot;
use index::links::{Leading, issuance_of, leading_at};
use index::lookups::{home_of, is_account, is_external, is_kind, is_security, pair_of};
use index::places::INDEX;
use rules::{PARTICIPANT, Refusal, Step};

// The account on the other side, "the inter-CSD account of its default link to an external CSD", which is the technical issuer, by "the participant's row"
fn inter_csd(index: &[u16; INDEX], csd: u8, account: u16, technical: u8) -> Option<u16>
    ensures { result ≡ contra_found (inter_csd (asked index.now) csd account (some technical)) }
{
    if !is_external(index, technical) {
        return None;
    }
    pair_of(index, csd, technical, account).map(|pair| pair.mirror)
}

// "in its CSD, the issuance account of its issuer link, else the inter-CSD account", by the links of the day, if there is one
fn contra_of(index: &[u16; INDEX], security: u8, csd: u8, account: u16, day: u16) -> Option<u16>
    ensures { result ≡ contra_found (contra (asked_on index.now day) security csd account) }
{
    match leading_at(index, security, csd, day) {
        Leading::Issuer => Some(issuance_of(index, security, csd, day)),
        Leading::To(technical) => inter_csd(index, csd, account, technical),
        Leading::Nowhere => None,
    }
}

// 6, 7 and 10.
fn move_refusal(
    index: &[u16; INDEX],
    account: u16,
    security: u8,
    quantity: u64,
) -> Result<(), Refusal>
    ensures { refused_by result ≡ first_of (operand_conditions (asked index.now) account security quantity) }
{
    if !is_account(index, account) || !is_security(index, security) {
        return Err(Refusal::NoRow);
    }
    if out_of_range(quantity) {
        return Err(Refusal::OutOfRange);
    }
    if !is_kind(index, account, PARTICIPANT) {
        return Err(Refusal::WrongAccount);
    }
    Ok(())
}

// The step of a bring-in or take-out between the account and the other one.
fn move_step(way: Way, csd: u8, account: u16, other: u16) -> Step
    ensures { result ≡ move_step (way_of way) csd account other }
{
    let (debited, credited) = match way {
        Way::Incoming => (other, account),
        Way::Outgoing => (account, other),
    };
    Step {
        csd,
        debited,
        credited,
    }
}

// 20 and 22 of the step; it is booked where neither applies.
fn book_step(
    index: &[u16; INDEX],
    positions: &mut [i64],
    lot: Lot,
    step: Step,
) -> Result<(), Refusal>
    requires { lot.quantity ≤ limit }
    ensures refusal { refused_by result
        ≡ first_of (step_conditions (asked index.now).kind positions.old lot.security lot.quantity step) }
    ensures left { positions.new ≡ cond (eqb (refused_by result) 0) (moved step lot.security lot.quantity positions.old) positions.old }
{
    let judged = lot.judge(index, positions, step);
    book_refusal(judged.short, false, judged.beyond)?;
    move_units(positions, lot, step);
    Ok(())
}

// "Bring in credits a participant account and debits, in its CSD," the account on the other side. "Take out is the reverse."
pub fn move_securities(
    index: &[u16; INDEX],
    positions: &mut [i64],
    way: Way,
    account: u16,
    security: u8,
    quantity: u64,
    day: u16,
) -> Result<(), Refusal>
    ensures answer { accepted_by result
        ≡ (move_outcome (asked_on index.now day) positions.old (way_of way) account security quantity).answer }
    ensures positions { positions.new
        ≡ (move_outcome (asked_on index.now day) positions.old (way_of way) account security quantity).positions }
{
    move_refusal(index, account, security, quantity)?;
    let csd = home_of(index, account);
    let other = contra_of(index, security, csd, account, day).ok_or(Refusal::NoContra)?;
    let step = move_step(way, csd, account, other);
    book_step(index, positions, Lot { security, quantity }, step)
}

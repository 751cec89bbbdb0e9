// Settlement of two halves: the steps of their chain are booked, and "receiving cash pays delivering cash".
ghost use Rattle.std.specs.Prelude.{◌≡◌, true, cond, ◌≤◌, ◌||◌, eqb, length};
ghost use Rattle.rules.specs.Numbers.{refused_by, booked_by};
ghost use Rattle.rules.specs.Chain.{step_limit};
ghost use Rattle.rules.specs.Booking.{limit, booked, units_short, units_beyond, cash_short, payment_beyond};
ghost use Rattle.index.specs.Asked.{asked, asked_on};
ghost use Rattle.chain.specs.StepList.{step_numbers, steps_in};
ghost use Rattle.holdings.specs.Fitting.{Standing};
ghost use Rattle.booking.specs.Refusals.{book_refusal};
ghost use Rattle.booking.specs.Room.{Bookable};
ghost use Rattle.booking.specs.Settling.{Settles};

use crate::cash::pay;
use crate::first_refusal::book_refusal;
use crate::numbers::add_at;
use crate::way::Way;
use chain::derivation::chain_of;
use chain::step_list::STEP_NUMBERS;
use halves::{InOrder, halves_refusal};
use holdings::cash::Payment;
use holdings::judging::{Lot, Transfer};
use holdings::positions::place;
use index::places::INDEX;
use rules::Refusal;

// A transfer once 22 lets it pass. Where the positions of all its steps stand in the list, no place is tested.
fn book_steps<const STANDING: bool>(positions: &mut [i64], transfer: Transfer)
    requires { Bookable positions.old transfer.lot.security transfer.lot.quantity transfer.steps.now transfer.count
        × (STANDING ≡ true → Standing positions.old transfer.lot.security transfer.steps.now transfer.count) }
    ensures { let x = transfer.entry in
        positions.new ≡ booked (steps_in x.steps.now x.count) x.lot.security x.lot.quantity positions.old }
{
    let Transfer { lot, steps, count } = transfer;
    let down = Way::Outgoing.signed(lot.quantity);
    let up = Way::Incoming.signed(lot.quantity);
    for done in 0..count {
        let at = 3 * done;
        let from = place(lot.security, steps[at + 1]);
        let to = place(lot.security, steps[at + 2]);
        add_at::<STANDING>(positions, from, down);
        add_at::<STANDING>(positions, to, up);
    }
}

// 20 over all steps, 21, then 22 over all changed numbers, judged on the lists as they are lent; the steps are booked where none applies.
fn book_chain(
    index: &[u16; INDEX],
    positions: &mut [i64],
    cash: &[i64],
    transfer: Transfer,
    payment: Payment,
) -> Result<(), Refusal>
    requires { (transfer.lot.quantity ≤ limit) × (length transfer.steps.now ≡ step_numbers) × (transfer.count ≤ step_limit) }
    ensures refusal { let x = transfer.entry in let xs = steps_in x.steps.now x.count in
        refused_by result ≡ book_refusal (units_short (asked index.now).kind positions.old x.lot.security x.lot.quantity xs)
        (cash_short cash.now payment.payer payment.amount)
        (units_beyond positions.old x.lot.security x.lot.quantity xs
        || payment_beyond cash.now payment.payer payment.payee payment.amount) }
    ensures left { let x = transfer.entry in positions.new
        ≡ cond (eqb (refused_by result) 0) (booked (steps_in x.steps.now x.count) x.lot.security x.lot.quantity positions.old) positions.old }
{
    if transfer.fits(index, positions) {
        if payment.short(cash) {
            return Err(Refusal::CashShort);
        }
        if payment.beyond(cash) {
            return Err(Refusal::Beyond);
        }
        book_steps::<true>(positions, transfer);
        return Ok(());
    }
    let units = transfer.judge(index, positions);
    let unpaid = payment.short(cash);
    let beyond = units.beyond | payment.beyond(cash);
    book_refusal(units.short, unpaid, beyond)?;
    book_steps::<false>(positions, transfer);
    Ok(())
}

// 6 to 13 of the halves and their sides, 14 to 18 of their chain on the day, 20 to 22 of its booking; else it is booked and paid for, and its steps are counted.
// A step list of another length is refused 3.
pub fn settle(
    index: &[u16; INDEX],
    positions: &mut [i64],
    cash: &mut [i64],
    steps: &mut [u16],
    halves: InOrder,
    day: u16,
) -> Result<usize, Refusal>
    ensures { Settles steps.old steps.new (asked_on index.now day) positions.old cash.old
        halves.delivering halves.receiving halves.unknown halves.same (booked_by result) positions.new cash.new }
{
    if steps.len() != STEP_NUMBERS {
        return Err(Refusal::LentList);
    }
    halves_refusal(index, halves)?;
    let half = halves.delivering;
    let lot = Lot {
        security: half.security,
        quantity: half.quantity,
    };
    let payment = Payment {
        payer: halves.receiving.account,
        payee: half.account,
        amount: half.amount,
    };
    let count = chain_of(
        index,
        lot.security,
        payment.payee,
        payment.payer,
        steps,
        day,
    )?;
    let transfer = Transfer { lot, steps, count };
    book_chain(index, positions, cash, transfer, payment)?;
    pay(cash, payment);
    Ok(count)
}

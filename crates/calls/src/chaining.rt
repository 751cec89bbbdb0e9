// Derivation and settlement, with their steps by value.
ghost use Rattle.std.specs.Prelude.{◌≡◌, ◌≤◌};
ghost use Rattle.rules.specs.Numbers.{number};
ghost use Rattle.rules.specs.Chain.{step_limit};
ghost use Rattle.rules.specs.Outcomes.{settlement_on, derivation_on, blanks, reply_of, by_value};
ghost use Rattle.rules.specs.Calls.{Halves, ordered, sided};
ghost use Rattle.chain.specs.StepList.{steps_in};
ghost use Rattle.halves.specs.Halves.{in_order};
ghost use Rattle.calls.specs.Replies.{refused, reply_by};

use crate::admit;
use booking::settling::settle;
use chain::derivation::derive;
use chain::step_list::{STEP_NUMBERS, step_at};
use halves::{InOrder, in_order};
use refusals::Kept;
use rules::{
    ACCOUNTS, Answer, Directory, Half, POSITIONS, Refusal, Reply, STEPS, SidedHalf, Step, Steps,
};

// ---- replies

fn blank_rows() -> [Step; STEPS]
    ensures { result ≡ blanks step_limit }
{
    [Step {
        csd: 0,
        debited: 0,
        credited: 0,
    }; STEPS]
}

// A refusal has no step.
fn refused(refusal: Refusal) -> Reply
    ensures { result ≡ refused (number refusal) }
{
    let rows = blank_rows();
    let steps = Steps { count: 0, rows };
    Reply {
        answer: Answer::Refused(u8::from(refusal)),
        steps,
    }
}

// The reply, or that of the refusal.
fn replied(outcome: Result<Reply, Refusal>) -> Reply
    ensures { result ≡ reply_by outcome }
{
    match outcome {
        Ok(reply) => reply,
        Err(refusal) => refused(refusal),
    }
}

// The first n steps of the list of numbers, on blank rows.
fn laid_out(numbers: &[u16], n: usize) -> Steps
    requires { n ≤ step_limit }
    ensures { result ≡ by_value (steps_in numbers.now n) }
{
    let mut rows = blank_rows();
    for i in 0..n {
        rows[i] = step_at(numbers, i);
    }
    Steps { count: n, rows }
}

// ---- the calls

// The chain of two halves on a day, for a caller that is lent `lent` steps.
fn derived(directory: Directory, lent: usize, halves: InOrder, day: u16) -> Result<Reply, Refusal>
    requires { (hs : Halves) × (halves ≡ in_order hs) }
    ensures { (hs : Halves) → halves ≡ in_order hs → reply_by result ≡ reply_of (derivation_on directory (blanks lent) hs day) }
{
    let mut kept = Kept::nothing();
    admit(lent < STEPS, directory, &mut kept)?;
    let mut numbers = [0u16; STEP_NUMBERS];
    let count = derive(&kept.numbers, &mut numbers, halves, day)?;
    Ok(Reply {
        answer: Answer::Chained(count),
        steps: laid_out(&numbers, count),
    })
}

// Two halves booked, likewise.
fn settled(
    directory: Directory,
    positions: &mut [i64],
    cash: &mut [i64],
    lent: usize,
    halves: InOrder,
    day: u16,
) -> Result<Reply, Refusal>
    requires { (hs : Halves) × (halves ≡ in_order hs) }
    ensures reply { (hs : Halves) → halves ≡ in_order hs
        → reply_by result ≡ reply_of (settlement_on directory positions.old cash.old (blanks lent) hs day) }
    ensures positions { (hs : Halves) → halves ≡ in_order hs
        → positions.new ≡ (settlement_on directory positions.old cash.old (blanks lent) hs day).store.positions }
    ensures cash { (hs : Halves) → halves ≡ in_order hs
        → cash.new ≡ (settlement_on directory positions.old cash.old (blanks lent) hs day).store.cash }
{
    let misfit = (positions.len() != POSITIONS) | ((cash.len() != ACCOUNTS) | (lent < STEPS));
    let mut kept = Kept::nothing();
    admit(misfit, directory, &mut kept)?;
    let mut numbers = [0u16; STEP_NUMBERS];
    let count = settle(&kept.numbers, positions, cash, &mut numbers, halves, day)?;
    Ok(Reply {
        answer: Answer::Booked(count),
        steps: laid_out(&numbers, count),
    })
}

// The chain of two halves on a day, delivering first, for a caller that is lent `lent` steps.
pub fn derive_reply(
    directory: Directory,
    lent: usize,
    delivering: Half,
    receiving: Half,
    day: u16,
) -> Reply
    ensures { result ≡ reply_of (derivation_on directory (blanks lent) (ordered delivering receiving) day) }
{
    let halves = InOrder::delivering_first(delivering, receiving);
    replied(derived(directory, lent, halves, day))
}

// The same of two halves with their sides, in either order.
pub fn derive_sided_reply(
    directory: Directory,
    lent: usize,
    first: SidedHalf,
    second: SidedHalf,
    day: u16,
) -> Reply
    ensures { result ≡ reply_of (derivation_on directory (blanks lent) (sided first second) day) }
{
    let pair = in_order(first, second);
    replied(derived(directory, lent, pair, day))
}

// Two halves booked by the links of a day, delivering first, for a caller that is lent `lent` steps.
pub fn settle_reply(
    directory: Directory,
    positions: &mut [i64],
    cash: &mut [i64],
    lent: usize,
    delivering: Half,
    receiving: Half,
    day: u16,
) -> Reply
    ensures { (result ≡ reply_of (settlement_on directory positions.old cash.old (blanks lent) (ordered delivering receiving) day))
        × (positions.new
        ≡ (settlement_on directory positions.old cash.old (blanks lent) (ordered delivering receiving) day).store.positions)
        × (cash.new
        ≡ (settlement_on directory positions.old cash.old (blanks lent) (ordered delivering receiving) day).store.cash) }
{
    let halves = InOrder::delivering_first(delivering, receiving);
    replied(settled(directory, positions, cash, lent, halves, day))
}

// The same of two halves with their sides, in either order.
pub fn settle_sided_reply(
    directory: Directory,
    positions: &mut [i64],
    cash: &mut [i64],
    lent: usize,
    first: SidedHalf,
    second: SidedHalf,
    day: u16,
) -> Reply
    ensures { (result ≡ reply_of (settlement_on directory positions.old cash.old (blanks lent) (sided first second) day))
        × (positions.new ≡ (settlement_on directory positions.old cash.old (blanks lent) (sided first second) day).store.positions)
        × (cash.new ≡ (settlement_on directory positions.old cash.old (blanks lent) (sided first second) day).store.cash) }
{
    let halves = in_order(first, second);
    replied(settled(directory, positions, cash, lent, halves, day))
}

// The chain of two halves on a day, delivering first, with its steps by value: what a lent list of 16 blank steps would hold.
pub fn derive_by_value(directory: Directory, delivering: Half, receiving: Half, day: u16) -> Reply
    ensures { result ≡ reply_of (derivation_on directory (blanks step_limit) (ordered delivering receiving) day) }
{
    derive_reply(directory, STEPS, delivering, receiving, day)
}

// Two halves booked, likewise.
pub fn settle_by_value(
    directory: Directory,
    positions: &mut [i64],
    cash: &mut [i64],
    delivering: Half,
    receiving: Half,
    day: u16,
) -> Reply
    ensures { (result ≡ reply_of (settlement_on directory positions.old cash.old (blanks step_limit) (ordered delivering receiving) day))
        × (positions.new
        ≡ (settlement_on directory positions.old cash.old (blanks step_limit) (ordered delivering receiving) day).store.positions)
        × (cash.new
        ≡ (settlement_on directory positions.old cash.old (blanks step_limit) (ordered delivering receiving) day).store.cash) }
{
    settle_reply(
        directory, positions, cash, STEPS, delivering, receiving, day,
    )
}

// Derivation and settlement, with their steps in a lent list.
ghost use Rattle.std.specs.Prelude.{◌≡◌, ◌≤◌, length};
ghost use Rattle.rules.specs.Chain.{step_limit};
ghost use Rattle.rules.specs.Calls.{ordered, sided, written};
ghost use Rattle.rules.specs.Outcomes.{settlement_on, derivation_on, step_rows};

use calls::{derive_reply, derive_sided_reply, settle_reply, settle_sided_reply};
use rules::{Answer, Directory, Half, Reply, SidedHalf, Step, Steps};

// The steps at the start of the lent list; the rest is untouched.
fn put_steps(steps: &mut [Step], from: Steps)
    requires { (from.count ≤ step_limit) × (from.count ≤ length steps.old) }
    ensures { steps.new ≡ written (step_rows from) steps.old }
{
    let count = from.count;
    steps[..count].copy_from_slice(&from.rows[..count]);
}

// The end of a derivation or settlement, apart so that the directory's types are not in sight where fields are read.
fn finish(steps: &mut [Step], reply: Reply) -> Answer
    requires { (reply.steps.count ≤ step_limit) × (reply.steps.count ≤ length steps.old) }
    ensures { (result ≡ reply.answer) × (steps.new ≡ written (step_rows reply.steps) steps.old) }
{
    put_steps(steps, reply.steps);
    reply.answer
}

// Derives the chain of two halves on a day, delivering first, and writes its K steps to the start of the lent list.
pub fn derive(
    directory: Directory,
    steps: &mut [Step],
    delivering: Half,
    receiving: Half,
    day: u16,
) -> Answer
    ensures { (result ≡ (derivation_on directory steps.old (ordered delivering receiving) day).answer)
        × (steps.new ≡ (derivation_on directory steps.old (ordered delivering receiving) day).steps) }
{
    let reply = derive_reply(directory, steps.len(), delivering, receiving, day);
    finish(steps, reply)
}

// The same of two halves with their sides, in either order.
pub fn derive_sided(
    directory: Directory,
    steps: &mut [Step],
    first: SidedHalf,
    second: SidedHalf,
    day: u16,
) -> Answer
    ensures { (result ≡ (derivation_on directory steps.old (sided first second) day).answer)
        × (steps.new ≡ (derivation_on directory steps.old (sided first second) day).steps) }
{
    let reply = derive_sided_reply(directory, steps.len(), first, second, day);
    finish(steps, reply)
}

// Books two halves by the links of a day, delivering first, and writes the K steps of their chain to the start of the lent list.
pub fn settle(
    directory: Directory,
    positions: &mut [i64],
    cash: &mut [i64],
    steps: &mut [Step],
    delivering: Half,
    receiving: Half,
    day: u16,
) -> Answer
    ensures { (result ≡ (settlement_on directory positions.old cash.old steps.old (ordered delivering receiving) day).answer)
        × (positions.new
        ≡ (settlement_on directory positions.old cash.old steps.old (ordered delivering receiving) day).store.positions)
        × (cash.new
        ≡ (settlement_on directory positions.old cash.old steps.old (ordered delivering receiving) day).store.cash)
        × (steps.new
        ≡ (settlement_on directory positions.old cash.old steps.old (ordered delivering receiving) day).steps) }
{
    let reply = settle_reply(
        directory,
        positions,
        cash,
        steps.len(),
        delivering,
        receiving,
        day,
    );
    finish(steps, reply)
}

// The same of two halves with their sides, in either order.
pub fn settle_sided(
    directory: Directory,
    positions: &mut [i64],
    cash: &mut [i64],
    steps: &mut [Step],
    first: SidedHalf,
    second: SidedHalf,
    day: u16,
) -> Answer
    ensures { (result ≡ (settlement_on directory positions.old cash.old steps.old (sided first second) day).answer)
        × (positions.new
        ≡ (settlement_on directory positions.old cash.old steps.old (sided first second) day).store.positions)
        × (cash.new ≡ (settlement_on directory positions.old cash.old steps.old (sided first second) day).store.cash)
        × (steps.new ≡ (settlement_on directory positions.old cash.old steps.old (sided first second) day).steps) }
{
    let reply = settle_sided_reply(directory, positions, cash, steps.len(), first, second, day);
    finish(steps, reply)
}

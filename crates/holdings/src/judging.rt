// 20 and 22 of a step: "A debited participant or omnibus position must not fall below 0", and "Every changed number must end within ±10^15".
ghost use Rattle.std.specs.Prelude.{◌≡◌, ◌≤◌, length};
ghost use Rattle.rules.specs.Chain.{step_limit};
ghost use Rattle.rules.specs.Booking.{limit, floored, step_short, units_short, step_beyond, units_beyond};
ghost use Rattle.index.specs.Asked.{asked};
ghost use Rattle.chain.specs.StepList.{step_numbers, steps_in};
ghost use Rattle.holdings.specs.Fitting.{debit_fits, credit_fits, none_unfit, steps_fit};

use crate::positions::{place, position_of};
use amounts::{is_below, less_beyond, more_beyond};
use chain::step_list::{STEP_NUMBERS, step_at};
use index::lookups::is_kind;
use index::places::INDEX;
use rules::{LIMIT, OMNIBUS, PARTICIPANT, STEPS, Step};

// 10^15, as a signed number.
const MOST: i64 = LIMIT as i64;

// Whether units are short (20), and whether a changed position ends beyond ±10^15 (22).
#[derive(Clone, Copy)]
pub struct Judged {
    pub short: bool,
    pub beyond: bool,
}

// So many units of a security.
#[derive(Clone, Copy)]
pub struct Lot {
    pub security: u8,
    pub quantity: u64,
}

// A lot, and the steps by which it moves: the first `count` of the list.
#[derive(Clone, Copy)]
pub struct Transfer<'a> {
    pub lot: Lot,
    pub steps: &'a [u16],
    pub count: usize,
}

// Whether the account is of a kind that "must not fall below 0".
fn is_floored(index: &[u16; INDEX], account: u16) -> bool
    ensures { result ≡ floored (asked index.now).kind account }
{
    let participant = is_kind(index, account, PARTICIPANT);
    let omnibus = is_kind(index, account, OMNIBUS);
    participant | omnibus
}

impl Lot {
    // Of one step that moves the lot.
    pub fn judge(self, index: &[u16; INDEX], positions: &[i64], step: Step) -> Judged
        ensures short { result.short ≡ step_short (asked index.now).kind positions.now self.security self.quantity step }
        ensures beyond { result.beyond ≡ step_beyond positions.now self.security self.quantity step }
    {
        let floored = is_floored(index, step.debited);
        let from = position_of(positions, self.security, step.debited);
        let to = position_of(positions, self.security, step.credited);
        let below = is_below(from.0, self.quantity);
        let low = less_beyond(from.0, self.quantity);
        let high = more_beyond(to.0, self.quantity);
        Judged {
            short: floored & below,
            beyond: low | high,
        }
    }

    // Whether the account can give the lot: its position stands in the list, the units are there where it must not fall below 0, and it ends within ±10^15.
    fn debit_fits(self, index: &[u16; INDEX], positions: &[i64], account: u16) -> bool
        requires { self.quantity ≤ limit }
        ensures { result ≡ debit_fits (asked index.now).kind positions.now self.security self.quantity account }
    {
        let from = place(self.security, account);
        let Some(&held) = positions.get(from) else {
            return false;
        };
        let units = self.quantity as i64;
        if held < units {
            if is_floored(index, account) {
                return false;
            }
            return units - MOST <= held;
        }
        held <= MOST + units
    }

    // Whether the account can take the lot: its position stands in the list, and it ends within ±10^15.
    fn credit_fits(self, positions: &[i64], account: u16) -> bool
        requires { self.quantity ≤ limit }
        ensures { result ≡ credit_fits positions.now self.security self.quantity account }
    {
        let to = place(self.security, account);
        let Some(&held) = positions.get(to) else {
            return false;
        };
        let units = self.quantity as i64;
        if held < -MOST - units {
            return false;
        }
        held <= MOST - units
    }
}

impl Transfer<'_> {
    // Of all its steps.
    pub fn judge(self, index: &[u16; INDEX], positions: &[i64]) -> Judged
        ensures short { result.short
            ≡ units_short (asked index.now).kind positions.now self.entry.lot.security self.entry.lot.quantity (steps_in self.entry.steps.now self.entry.count) }
        ensures beyond { result.beyond ≡ units_beyond positions.now self.entry.lot.security self.entry.lot.quantity (steps_in self.entry.steps.now self.entry.count) }
    {
        let mut short = false;
        let mut beyond = false;
        for i in 0..self.count {
            let judged = self.lot.judge(index, positions, step_at(self.steps, i));
            short |= judged.short;
            beyond |= judged.beyond;
        }
        Judged { short, beyond }
    }

    // Whether a lot of 10^15 at most can be booked by steps of a list of steps: their positions stand in the list, none is short, and none ends beyond ±10^15.
    // Out at the first that does not fit.
    pub fn fits(self, index: &[u16; INDEX], positions: &[i64]) -> bool
        ensures { result ≡ steps_fit (asked index.now).kind positions.now self.entry.lot.security self.entry.lot.quantity self.entry.steps.now self.entry.count }
    {
        let Transfer { lot, steps, count } = self;
        if LIMIT < lot.quantity {
            return false;
        }
        if steps.len() != STEP_NUMBERS || STEPS < count {
            return false;
        }
        // A `for`: by `all` each step costs an instruction more.
        for i in 0..count {
            let at = 3 * i;
            if !lot.debit_fits(index, positions, steps[at + 1]) {
                return false;
            }
            if !lot.credit_fits(positions, steps[at + 2]) {
                return false;
            }
        }
        true
    }
}

// Totals: whole sums, refused 22 where a number that they add up is beyond ±10^15.
ghost use Rattle.std.specs.Prelude.{◌≡◌, ℕ, ℤ, ◌<◌, Bool, pos, ◌+ℤ◌};
ghost use Rattle.std.specs.Int.{w64};
ghost use Rattle.std.proofs.Common.{SFits};
ghost use Rattle.rules.specs.Directory.{account_limit};
ghost use Rattle.rules.specs.Booking.{beyond, units_found, cents_found};
ghost use Rattle.index.specs.Asked.{asked};
ghost use Rattle.holdings.specs.Sums;
ghost use Rattle.holdings.specs.Sums.{picked, SumFound, security_total, cash_total};

use crate::cash::balance_of;
use crate::positions::position_of;
use amounts::is_beyond;
use index::lookups::{is_kind, is_security};
use index::places::INDEX;
use rules::{ACCOUNTS, Cents, PARTICIPANT, Refusal, Units};

// The number behind that of the last account.
const ALL: u16 = ACCOUNTS as u16;

// What an account holds: units, or cents. A sum is of one kind: "units of a security and cents of cash never add up together".
trait Held: Copy {
    ghost number: { Self → ℤ };

    fn none() -> Self
        ensures { number result ≡ pos 0 };

    fn is_beyond(self) -> bool
        ensures { result ≡ beyond (number self) };

    fn plus(self, more: Self) -> Self
        requires { SFits w64 (number self +ℤ number more) }
        ensures { number result ≡ number self +ℤ number more };
}

impl Held for Units {
    ghost number = { λ x. x.0 };

    fn none() -> Units {
        Units(0)
    }

    fn is_beyond(self) -> bool {
        is_beyond(self.0)
    }

    fn plus(self, more: Units) -> Units {
        Units(self.0 + more.0)
    }
}

impl Held for Cents {
    ghost number = { λ x. x.0 };

    fn none() -> Cents {
        Cents(0)
    }

    fn is_beyond(self) -> bool {
        is_beyond(self.0)
    }

    fn plus(self, more: Cents) -> Cents {
        Cents(self.0 + more.0)
    }
}

// The sum of what all accounts count for.
fn total<N: Held, F: Fn(u16) -> N>(counted: F) -> Result<N, Refusal>
    requires { F.IsAlwaysCallable counted }
    ensures { (w : ℕ → Bool) (f : ℕ → ℤ)
        → ((a : ℕ) (z : N) → F.post counted a z → N.number z ≡ picked w f a)
        → SumFound N.number w f result }
{
    let mut sum = N::none();
    for account in 0..ALL {
        let held = counted(account);
        if held.is_beyond() {
            return Err(Refusal::Beyond);
        }
        sum = sum.plus(held);
    }
    Ok(sum)
}

// The sum of all balances.
pub fn cash_total(cash: &[i64]) -> Result<Cents, Refusal>
    ensures { cents_found result ≡ cash_total cash.now }
{
    total(|account| balance_of(cash, account))
}

// What an account counts for: a participant's position, else nothing.
fn counted(index: &[u16; INDEX], positions: &[i64], security: u8, account: u16) -> Units
    ensures { result.0 ≡ Sums.counted (asked index.now).kind positions.now security account }
{
    if is_kind(index, account, PARTICIPANT) {
        return position_of(positions, security, account);
    }
    Units(0)
}

// The sum of participant positions in the security; 6 where the number names no security.
pub fn security_total(
    index: &[u16; INDEX],
    positions: &[i64],
    security: u8,
) -> Result<Units, Refusal>
    ensures { units_found result ≡ security_total (asked index.now) positions.now security }
{
    if !is_security(index, security) {
        return Err(Refusal::NoRow);
    }
    total(|account| counted(index, positions, security, account))
}

// The calls over a directory by value and lent lists of any length and content: 3, then 4, for which the directory is read into an index, then the very
// function that a stream calls. Each answers what the rules' call answers on what it is handed. Where that is Refused, nothing lent or handed in has
// changed.
#![tactic(auto)]

mod blank; // blank.rt: the empty directory
mod entering; // entering.rt: the five entries, each adding its row to its table
mod moving; // moving.rt: positions and cash
mod chaining; // chaining.rt: derivation and settlement, with their steps by value

ghost use Rattle.std.specs.Prelude.{◌≡◌, IfOk};
ghost use Rattle.rules.specs.Numbers.{refused_by};
ghost use Rattle.refusals.specs.Kept.{nothing_kept, Keeps};
ghost use Rattle.calls.specs.Early.{early};

pub use blank::empty;
pub use chaining::{
    derive_by_value, derive_reply, derive_sided_reply, settle_by_value, settle_reply,
    settle_sided_reply,
};
pub use entering::{enter_account, enter_csd, enter_link, enter_pair, enter_security};
pub use moving::{bring_in, cash_total, pay_in, pay_out, security_total, take_out};
use reading::read;
use refusals::Kept;
use rules::{Directory, Refusal};

// 3 where a lent list does not fit, else 4 where the directory is not sound; else what is kept of the directory stands in `kept`, which is lent since a
// value of its size would be moved once more by each `?`.
fn admit(misfit: bool, directory: Directory, kept: &mut Kept) -> Result<(), Refusal>
    requires { kept.old ≡ nothing_kept }
    ensures number { refused_by result ≡ early misfit directory }
    ensures keeps { IfOk result (λ _. Keeps kept.new directory) }
{
    if misfit {
        return Err(Refusal::LentList);
    }
    if !read(&directory, kept) {
        return Err(Refusal::Unsound);
    }
    Ok(())
}

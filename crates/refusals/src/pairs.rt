// What refuses a pair.
ghost use Rattle.std.specs.Prelude.{◌≡◌};
ghost use Rattle.rules.specs.Entries.{pair_row, second_unknown, wrong_accounts, wrong_served, pair_unknown, sharing, pair_entered};
ghost use Rattle.index.specs.Asked.{asked};

use crate::entry::Entry;
use crate::kept::Kept;
use index::lookups::{
    is_account, is_account_of, is_apart, is_csd, is_external, is_served, pairs_full,
};
use index::places::INDEX;
use rules::{INTER_CSD, MIRROR, NO_ACCOUNT, OMNIBUS, PARTICIPANT, Pair, Refusal};

// The second account names no row, and is not the hex FFFF that an external technical issuer takes.
fn second_unknown(index: &[u16; INDEX], row: Pair) -> bool
    ensures { result ≡ second_unknown (asked index.now) row }
{
    !is_account(index, row.omnibus)
        & !(is_external(index, row.technical) & (row.omnibus == NO_ACCOUNT))
}

// "Technical issuer in T2S: a mirror in the investor's books, an omnibus in the other's. External: an inter-CSD account"
fn wrong_accounts(index: &[u16; INDEX], row: Pair) -> bool
    ensures { result ≡ wrong_accounts (asked index.now) row }
{
    if is_external(index, row.technical) {
        return !is_account_of(index, row.mirror, row.investor, INTER_CSD);
    }
    !is_account_of(index, row.mirror, row.investor, MIRROR)
        | !is_account_of(index, row.omnibus, row.technical, OMNIBUS)
}

// Whether a CSD or account of the pair names no row.
fn pair_unknown(index: &[u16; INDEX], row: Pair) -> bool
    ensures { result ≡ pair_unknown (asked index.now) row }
{
    let investor = !is_csd(index, row.investor);
    let technical = !is_csd(index, row.technical);
    let mirror = !is_account(index, row.mirror);
    let served = !is_account(index, row.served);
    investor | (technical | (mirror | (second_unknown(index, row) | served)))
}

// The account served is not "a participant or omnibus account of the investor CSD".
fn wrong_served(index: &[u16; INDEX], row: Pair) -> bool
    ensures { result ≡ wrong_served (asked index.now) row }
{
    let participant = is_account_of(index, row.served, row.investor, PARTICIPANT);
    let omnibus = is_account_of(index, row.served, row.investor, OMNIBUS);
    !(participant | omnibus)
}

// A row that may share the first account: "both accounts", "with an external issuer the inter-CSD account alone".
fn sharing_row(index: &[u16; INDEX], row: Pair) -> Pair
    ensures { result ≡ sharing (asked index.now) row }
{
    if is_external(index, row.technical) {
        return Pair {
            omnibus: NO_ACCOUNT,
            ..row
        };
    }
    row
}

// "the same triplet or a sharing not allowed"
fn pair_entered(index: &[u16; INDEX], row: Pair) -> bool
    ensures { result ≡ pair_entered (asked index.now) row }
{
    let triplet = is_served(index, row.investor, row.technical, row.served);
    let first = is_apart(index, row.mirror, sharing_row(index, row));
    triplet | (first | is_apart(index, row.omnibus, row))
}

// 0E: of rows (6), neither the triplet entered nor an account shared otherwise than allowed (9), with their accounts (10), two CSDs and FFFF where it is
// due (11).
impl Entry for Pair {
    ghost as_row = { pair_row };

    fn refusal(self, kept: &Kept) -> Result<(), Refusal> {
        let index = &kept.numbers;
        if pairs_full(index) {
            return Err(Refusal::TableFull);
        }
        if pair_unknown(index, self) {
            return Err(Refusal::NoRow);
        }
        if pair_entered(index, self) {
            return Err(Refusal::AlreadyEntered);
        }
        if wrong_accounts(index, self) | wrong_served(index, self) {
            return Err(Refusal::WrongAccount);
        }
        let alone = is_external(index, self.technical) & (self.omnibus != NO_ACCOUNT);
        if (self.investor == self.technical) | alone {
            return Err(Refusal::RuleBroken);
        }
        Ok(())
    }
}

// What refuses a link.
ghost use Rattle.std.specs.Prelude.{◌≡◌, cond, eqb};
ghost use Rattle.rules.specs.Entries.{link_row, technical_unknown, account_unknown, link_unknown};
ghost use Rattle.rules.specs.Entries.{technical_entered, wrong_issuance, issuer_broken, default_each_day, flag_broken, alternative_outside, investor_broken};
ghost use Rattle.index.specs.Asked.{asked};

use crate::entry::Entry;
use crate::kept::Kept;
use index::links::{Wanted, day_after_default, meets_link};
use index::lookups::{is_account, is_account_of, is_csd, is_external, is_security, links_full};
use index::places::INDEX;
use rules::{ISSUANCE, Link, NO_ACCOUNT, NO_CSD, Refusal};

// The technical issuer names no row; hex FF is left for an issuer, and "beside a kind that is itself 7".
fn technical_unknown(index: &[u16; INDEX], row: Link) -> bool
    ensures { result ≡ technical_unknown (asked index.now) row }
{
    !is_csd(index, row.technical) & ((row.technical != NO_CSD) | (row.kind == 1))
}

// The account names no row; hex FFFF is left but for an issuer in T2S.
fn account_unknown(index: &[u16; INDEX], row: Link) -> bool
    ensures { result ≡ account_unknown (asked index.now) row }
{
    !is_account(index, row.account)
        & ((row.account != NO_ACCOUNT) | ((row.kind == 0) & !is_external(index, row.csd)))
}

// The CSD has this technical issuer for the security already, on a day of the row; hex FF never counts.
fn technical_entered(index: &[u16; INDEX], row: Link) -> bool
    ensures { result ≡ technical_entered (asked index.now) row }
{
    (row.technical != NO_CSD) & meets_link(index, row, Wanted::Towards(row.technical))
}

// "An issuer link has .. an issuance account of its CSD"
fn wrong_issuance(index: &[u16; INDEX], row: Link) -> bool
    ensures { result ≡ wrong_issuance (asked index.now) row }
{
    (row.kind == 0)
        & (!is_external(index, row.csd) & !is_account_of(index, row.account, row.csd, ISSUANCE))
}

// An issuer link has FF, flag 1, FFFF if external; "that CSD has no other link for the security", on any of its days.
fn issuer_broken(index: &[u16; INDEX], row: Link) -> bool
    ensures { result ≡ issuer_broken (asked index.now) row }
{
    let account = is_external(index, row.csd) & (row.account != NO_ACCOUNT);
    (row.technical != NO_CSD) | ((row.flag != 1) | (account | meets_link(index, row, Wanted::Any)))
}

// "an alternative needs a default on each of its days": on its first, then on the day after that default's last, and so on.
fn default_each_day(index: &[u16; INDEX], row: Link) -> bool
    ensures { result ≡ default_each_day (asked index.now) row }
{
    let mut day = row.first as u32;
    while day <= (row.last as u32) {
        let Some(next) = day_after_default(index, row.security, row.csd, day as u16) else {
            return false;
        };
        day = next;
    }
    true
}

// One default on each day, for a default link and for an alternative.
fn flag_broken(index: &[u16; INDEX], row: Link) -> bool
    ensures { result ≡ flag_broken (asked index.now) row }
{
    if row.flag == 1 {
        return meets_link(index, row, Wanted::Defaults);
    }
    if row.flag == 0 {
        return !default_each_day(index, row);
    }
    false
}

// "an alternative joins two CSDs in T2S"
fn alternative_outside(index: &[u16; INDEX], row: Link) -> bool
    ensures { result ≡ alternative_outside (asked index.now) row }
{
    (row.flag == 0) & (is_external(index, row.csd) | is_external(index, row.technical))
}

// "An investor link has another CSD as technical issuer and FFFF", and its CSD no issuer link for the security on any of its days.
fn investor_broken(index: &[u16; INDEX], row: Link) -> bool
    ensures { result ≡ investor_broken (asked index.now) row }
{
    let issuer = meets_link(index, row, Wanted::Issuers);
    let flag = flag_broken(index, row) | alternative_outside(index, row);
    (row.technical == row.csd) | ((row.account != NO_ACCOUNT) | (issuer | flag))
}

// The rules of its kind.
fn rule_broken(index: &[u16; INDEX], row: Link) -> bool
    ensures { result ≡ cond (eqb row.kind 0) (issuer_broken (asked index.now) row) (investor_broken (asked index.now) row) }
{
    if row.kind == 0 {
        return issuer_broken(index, row);
    }
    investor_broken(index, row)
}

// Whether a row that the link names is missing.
fn link_unknown(index: &[u16; INDEX], row: Link) -> bool
    ensures { result ≡ link_unknown (asked index.now) row }
{
    let security = !is_security(index, row.security);
    let csd = !is_csd(index, row.csd);
    security | (csd | (technical_unknown(index, row) | account_unknown(index, row)))
}

// 05: of rows (6), kind and flag in their lists (7), another technical issuer (9), its issuance account (10), its days (24), the rules of its kind (11).
impl Entry for Link {
    ghost as_row = { link_row };

    fn refusal(self, kept: &Kept) -> Result<(), Refusal> {
        let index = &kept.numbers;
        if links_full(index) {
            return Err(Refusal::TableFull);
        }
        if link_unknown(index, self) {
            return Err(Refusal::NoRow);
        }
        if (1 < self.kind) | (1 < self.flag) {
            return Err(Refusal::OutOfRange);
        }
        if technical_entered(index, self) {
            return Err(Refusal::AlreadyEntered);
        }
        if wrong_issuance(index, self) {
            return Err(Refusal::WrongAccount);
        }
        if self.last < self.first {
            return Err(Refusal::FirstAfterLast);
        }
        if rule_broken(index, self) {
            return Err(Refusal::RuleBroken);
        }
        Ok(())
    }
}

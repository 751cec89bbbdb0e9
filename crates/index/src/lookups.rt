// Questions to an index, but for those to links. Each is answered for every list of numbers as specs/Asked says; where the list is the index of a directory,
// that is what searching its tables would answer.
#![tactic(auto, unfolding(crate::specs::Asked::asked_by, crate::specs::Asked::read))]

ghost use Rattle.std.specs.Prelude.{◌≡◌, ◌%◌, ◌<◌, leb};
ghost use Rattle.rules.specs.Directory.{account_limit, link_limit};
ghost use Rattle.rules.specs.Lookups.{is_account_of};
ghost use Rattle.index.specs.Index.{link_count, type_at, home_at, kind_at, omnibus_at, served_at};
ghost use Rattle.index.specs.Asked.{read, duo_is, asked};
ghost use Rattle.index.specs.Found.{pair_found};

use crate::places::{
    ACCOUNT_COUNT, HOMES, INDEX, INVESTORS, KINDS, LINK_COUNT, MIRRORS, OMNIBUSES, PAIR_COUNT,
    SECURITY_COUNT, SERVED, TECHNICALS, TYPES, entry, of_cell, of_row,
};
use rules::{ACCOUNTS, CSDS, LINKS, PAIRS, Pair};

// One more than the CSD's type, 0 where the number names no row.
fn type_code(index: &[u16; INDEX], csd: u8) -> u16
    ensures { result ≡ read index.now (type_at csd) }
{
    of_row(index, TYPES, csd as usize, CSDS)
}

// Whether the table holds as many rows as it may.
pub fn accounts_full(index: &[u16; INDEX]) -> bool
    ensures { result ≡ (asked index.now).accounts_full }
{
    ACCOUNTS <= (entry(index, ACCOUNT_COUNT) as usize)
}

pub fn pairs_full(index: &[u16; INDEX]) -> bool
    ensures { result ≡ (asked index.now).pairs_full }
{
    PAIRS <= (entry(index, PAIR_COUNT) as usize)
}

pub fn links_full(index: &[u16; INDEX]) -> bool
    ensures { result ≡ leb link_limit (read index.now link_count) }
{
    LINKS <= (entry(index, LINK_COUNT) as usize)
}

// Whether the number names a row of its table.
pub fn is_csd(index: &[u16; INDEX], csd: u8) -> bool
    ensures { result ≡ (asked index.now).csd csd }
{
    type_code(index, csd) != 0
}

pub fn is_security(index: &[u16; INDEX], security: u8) -> bool
    ensures { result ≡ (asked index.now).security security }
{
    (security as u16) < entry(index, SECURITY_COUNT)
}

// Whether the CSD is external; a number that names no row is not.
pub fn is_external(index: &[u16; INDEX], csd: u8) -> bool
    ensures { result ≡ (asked index.now).outside csd }
{
    type_code(index, csd) == 2
}

// One more than the account's CSD, 0 where the number names no row.
fn home_code(index: &[u16; INDEX], account: u16) -> u16
    ensures { result ≡ read index.now (home_at account) }
{
    of_row(index, HOMES, account as usize, ACCOUNTS)
}

// One more than the account's kind, 0 where the number names no row.
fn kind_code(index: &[u16; INDEX], account: u16) -> u16
    ensures { result ≡ read index.now (kind_at account) }
{
    of_row(index, KINDS, account as usize, ACCOUNTS)
}

pub fn is_account(index: &[u16; INDEX], account: u16) -> bool
    ensures { result ≡ (asked index.now).account account }
{
    home_code(index, account) != 0
}

// The CSD in whose books the account stands, hex FF where the number names no row.
pub fn home_of(index: &[u16; INDEX], account: u16) -> u8
    ensures { result ≡ (asked index.now).home account }
{
    let code = home_code(index, account) as u32;
    ((code + 0xff) % 256) as u8
}

// Whether the account stands in the books of this CSD.
pub fn in_books(index: &[u16; INDEX], account: u16, csd: u8) -> bool
    ensures { result ≡ (asked index.now).books account csd }
{
    home_code(index, account) == (csd as u16) + 1
}

// Whether the account is of this kind.
pub fn is_kind(index: &[u16; INDEX], account: u16, kind: u8) -> bool
    ensures { result ≡ (asked index.now).kind account kind }
{
    kind_code(index, account) == (kind as u16) + 1
}

// Both.
pub fn is_account_of(index: &[u16; INDEX], account: u16, csd: u8, kind: u8) -> bool
    ensures { result ≡ is_account_of (asked index.now) account csd kind }
{
    in_books(index, account, csd) & is_kind(index, account, kind)
}

// Whether the duo of an account of the table is that of this row.
fn is_duo_of(index: &[u16; INDEX], account: u16, row: Pair) -> bool
    requires { account < 256 }
    ensures { result ≡ duo_is index.now account row }
{
    let a = account as usize;
    let mirror = (entry(index, MIRRORS + a) as u32) == (row.mirror as u32) + 1;
    let omnibus = entry(index, OMNIBUSES + a) == row.omnibus;
    let investor = entry(index, INVESTORS + a) == (row.investor as u16);
    let technical = entry(index, TECHNICALS + a) == (row.technical as u16);
    (mirror & omnibus) & (investor & technical)
}

// Whether the account is in a duo other than that of this row; hex FFFF is in none.
pub fn is_apart(index: &[u16; INDEX], account: u16, row: Pair) -> bool
    ensures { result ≡ (asked index.now).apart account row }
{
    let a = account as usize;
    if ACCOUNTS <= a {
        return false;
    }
    if entry(index, MIRRORS + a) == 0 {
        return false;
    }
    !is_duo_of(index, account, row)
}

// One more than the first account of the row that serves the account at the technical issuer, 0 where there is none.
fn served_code(index: &[u16; INDEX], technical: u8, served: u16) -> u16
    ensures { result ≡ read index.now (served_at technical served) }
{
    let t = technical as usize;
    let a = served as usize;
    of_cell(index, SERVED, t, CSDS, a, ACCOUNTS)
}

// The account that stands in a duo with the account in the investor's books, which is of the table.
fn omnibus_beside(index: &[u16; INDEX], mirror: u16) -> u16
    ensures { result ≡ read index.now (omnibus_at (mirror % account_limit)) }
{
    let a = (mirror as usize) % ACCOUNTS;
    entry(index, OMNIBUSES + a)
}

// The row of an investor CSD, its technical issuer and the account served, if there is one.
pub fn pair_of(index: &[u16; INDEX], investor: u8, technical: u8, served: u16) -> Option<Pair>
    ensures { result ≡ pair_found ((asked index.now).pair investor technical served) }
{
    if !in_books(index, served, investor) {
        return None;
    }
    let mirror = served_code(index, technical, served).checked_sub(1)?;
    let omnibus = omnibus_beside(index, mirror);
    Some(Pair {
        investor,
        technical,
        mirror,
        omnibus,
        served,
    })
}

// Whether there is one.
pub fn is_served(index: &[u16; INDEX], investor: u8, technical: u8, served: u16) -> bool
    ensures { result ≡ (asked index.now).served investor technical served }
{
    (served_code(index, technical, served) != 0) & in_books(index, served, investor)
}

// The five entries of document 01 over what is kept of a directory: each adds its row's numbers and bytes, or refuses and changes nothing.
ghost use Rattle.std.specs.Prelude.{◌≡◌, ◌+◌, ◌*◌, ◌<◌};
ghost use Rattle.rules.specs.Numbers.{refused_by};
ghost use Rattle.index.specs.Index.{links, link_numbers, number_at, with_number};
ghost use Rattle.refusals.specs.Kept.{refusal_in};
ghost use Rattle.entries.specs.Entered.{one_more, with_duo, row_for, with_target, with_row_in, entered_in};

use identifiers::names::{put_bic, put_isin};
use index::places::{
    ACCOUNT, ACCOUNT_COUNT, CSD_COUNT, FIRST, FLAG, HOMES, INDEX, INVESTORS, KIND, KINDS, LAST,
    LINK_COUNT, LINK_NUMBERS, LINK_ROWS, MIRRORS, NEWEST, NEXT, OMNIBUSES, PAIR_COUNT,
    SECURITY_COUNT, SERVED, TARGETS, TECHNICAL, TECHNICALS, TYPES, entry, store,
};
use refusals::{Entry, Kept};
use rules::{ACCOUNTS, Account, CSDS, Csd, LINKS, Link, NO_ACCOUNT, Pair, Refusal, Security};

// A row with what is kept of it.
pub trait Keep: Entry {
    // Its numbers and bytes, behind those of the rows before it.
    fn keep_in(self, kept: &mut Kept)
        ensures { kept.new ≡ with_row_in (Self.as_row self) kept.old };
}

// Command 01, 02, 03, 0E or 05.
pub fn enter<R: Keep>(kept: &mut Kept, row: R) -> Result<(), Refusal>
    ensures answer { refused_by result ≡ refusal_in kept.old (R.as_row row) }
    ensures left { kept.new ≡ entered_in (R.as_row row) kept.old }
{
    row.refusal(kept)?;
    row.keep_in(kept);
    Ok(())
}

// One more; a table's count and a pair's account are below the largest u16, which stays as it is.
fn one_more(n: u16) -> u16
    ensures { result ≡ one_more n }
{
    n.saturating_add(1)
}

// One row more in the table whose count stands there.
fn count_on(index: &mut [u16; INDEX], count: usize)
    ensures { index.new ≡ with_number index.old count (one_more (number_at index.old count)) }
{
    let n = entry(index, count);
    store(index, count, one_more(n));
}

// The account is in the duo of the row; hex FFFF never is in one.
fn add_duo(index: &mut [u16; INDEX], row: Pair, account: u16)
    ensures { index.new ≡ with_duo row account index.old }
{
    if account == NO_ACCOUNT {
        return;
    }
    let a = account as usize;
    store(index, MIRRORS + a, one_more(row.mirror));
    store(index, OMNIBUSES + a, row.omnibus);
    store(index, INVESTORS + a, row.investor as u16);
    store(index, TECHNICALS + a, row.technical as u16);
}

// A number of a link put.
fn put_number(index: &mut [u16; INDEX], link: u16, number: usize, value: u16)
    requires { number < link_numbers }
    ensures { index.new ≡ with_number index.old (links + (link * link_numbers + number)) value }
{
    store(
        index,
        LINK_ROWS + ((link as usize) * LINK_NUMBERS + number),
        value,
    );
}

// Where the numbers of a link begin, 0 behind the last that an index has.
fn row_for(link: u16) -> u16
    ensures { result ≡ row_for link }
{
    let n = link as usize;
    if n < LINKS {
        return (LINK_ROWS + n * LINK_NUMBERS) as u16;
    }
    0
}

// The technical issuer of an investor link is a target of its security.
fn add_target(index: &mut [u16; INDEX], row: Link)
    ensures { index.new ≡ with_target row index.old }
{
    if row.kind != 1 {
        return;
    }
    let place = (row.security as usize) * CSDS + (row.technical as usize);
    store(index, TARGETS + place, 1);
}

// A CSD's numbers and bytes.
impl Keep for Csd {
    fn keep_in(self, kept: &mut Kept) {
        let index = &mut kept.numbers;
        let n = entry(index, CSD_COUNT);
        let bic = self.bic;
        put_bic(&mut kept.names, n, bic);
        store(index, TYPES + (n as usize), (self.external as u16) + 1);
        count_on(index, CSD_COUNT);
    }
}

// A security's.
impl Keep for Security {
    fn keep_in(self, kept: &mut Kept) {
        let index = &mut kept.numbers;
        let n = entry(index, SECURITY_COUNT);
        let isin = self.isin;
        put_isin(&mut kept.names, n, isin);
        count_on(index, SECURITY_COUNT);
    }
}

// An account's numbers.
impl Keep for Account {
    fn keep_in(self, kept: &mut Kept) {
        let index = &mut kept.numbers;
        let n = entry(index, ACCOUNT_COUNT) as usize;
        store(index, HOMES + n, (self.csd as u16) + 1);
        store(index, KINDS + n, (self.kind as u16) + 1);
        count_on(index, ACCOUNT_COUNT);
    }
}

// A pair's numbers.
impl Keep for Pair {
    fn keep_in(self, kept: &mut Kept) {
        let index = &mut kept.numbers;
        let place = (self.technical as usize) * ACCOUNTS + (self.served as usize);
        store(index, SERVED + place, one_more(self.mirror));
        add_duo(index, self, self.mirror);
        add_duo(index, self, self.omnibus);
        count_on(index, PAIR_COUNT);
    }
}

// A link's numbers behind those of the others, and it is the newest of its CSD for its security.
impl Keep for Link {
    fn keep_in(self, kept: &mut Kept) {
        let index = &mut kept.numbers;
        let link = entry(index, LINK_COUNT);
        let cell = NEWEST + ((self.security as usize) * CSDS + (self.csd as usize));
        let next = entry(index, cell);
        put_number(index, link, NEXT, next);
        put_number(index, link, FIRST, self.first);
        put_number(index, link, LAST, self.last);
        put_number(index, link, KIND, self.kind as u16);
        put_number(index, link, FLAG, self.flag as u16);
        put_number(index, link, TECHNICAL, self.technical as u16);
        put_number(index, link, ACCOUNT, self.account);
        store(index, cell, row_for(link));
        add_target(index, self);
        count_on(index, LINK_COUNT);
    }
}

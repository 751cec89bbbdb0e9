// A row of any table, and a directory with it. Where its entry is refused, the directory is as it was.
ghost use Rattle.std.specs.Prelude.{◌≡◌, map, cond};
ghost use Rattle.rules.specs.Outcomes.{entered_on};
ghost use Rattle.rules.specs.Directory.{no_csd, no_account};
ghost use Rattle.rules.specs.Entries.{csd_row, security_row, pair_row, link_row};
ghost use Rattle.examples.specs.Directories.{row_of, listing, entering, entering_all, csd_by, account_by, pair_by, link_by};

use desk::{enter_account, enter_csd, enter_link, enter_pair, enter_security};
use rules::{Account, Csd, Directory, Entered, Link, NO_ACCOUNT, NO_CSD, Pair, Security};

// The links' last day: "01's example takes days 0 to 65,535 and day 0." (02)
const LAST_DAY: u16 = 65_535;

#[derive(Clone, Copy)]
pub enum Row {
    Csd(Csd),
    Security(Security),
    Account(Account),
    Pair(Pair),
    Link(Link),
}

impl Row {
    // A CSD by one byte of its BIC.
    pub fn csd(external: u8, byte: u8) -> Row
        ensures { row_of result ≡ csd_row (csd_by external byte) }
    {
        let mut bic = *b"AAAAXX00XXX";
        bic[7] = byte;
        Row::Csd(Csd { external, bic })
    }

    // The examples' one security.
    pub fn security() -> Row
        ensures { row_of result ≡ listing }
    {
        Row::Security(Security {
            isin: *b"XS0000000009",
        })
    }

    pub fn account(csd: u8, kind: u8) -> Row
        ensures { row_of result ≡ account_by csd kind }
    {
        Row::Account(Account { csd, kind })
    }

    pub fn pair(investor: u8, technical: u8, mirror: u16, omnibus: u16, served: u16) -> Row
        ensures { row_of result ≡ pair_row (pair_by investor technical mirror omnibus served) }
    {
        Row::Pair(Pair {
            investor,
            technical,
            mirror,
            omnibus,
            served,
        })
    }

    // The CSD is the security's issuer, by its issuance account.
    pub fn issuer(csd: u8, account: u16) -> Row
        ensures { row_of result ≡ link_row (link_by 0 csd no_csd 1 account) }
    {
        link(0, csd, NO_CSD, 1, account)
    }

    // The CSD is an investor in the security by a technical issuer: its default or an alternative.
    pub fn investor(csd: u8, technical: u8, default: bool) -> Row
        ensures { row_of result ≡ link_row (link_by 1 csd technical (cond default 1 0) no_account) }
    {
        link(1, csd, technical, u8::from(default), NO_ACCOUNT)
    }

    // What the row's entry answers, and the directory after it.
    pub fn entered(self, directory: Directory) -> Entered
        ensures { result ≡ entered_on directory (row_of self) }
    {
        match self {
            Row::Csd(row) => enter_csd(directory, row),
            Row::Security(row) => enter_security(directory, row),
            Row::Account(row) => enter_account(directory, row),
            Row::Pair(row) => enter_pair(directory, row),
            Row::Link(row) => enter_link(directory, row),
        }
    }
}

// A link for the one security, on every day.
pub fn link(kind: u8, csd: u8, technical: u8, flag: u8, account: u16) -> Row
    ensures { row_of result ≡ link_row (link_by kind csd technical flag account) }
{
    Row::Link(Link {
        security: 0,
        kind,
        csd,
        technical,
        flag,
        account,
        first: 0,
        last: LAST_DAY,
    })
}

pub fn with(directory: Directory, row: Row) -> Directory
    ensures { result ≡ entering (row_of row) directory }
{
    row.entered(directory).directory
}

// The directory with these rows, entered one after another.
pub fn with_all(directory: Directory, rows: &[Row]) -> Directory
    ensures { result ≡ entering_all (map row_of rows.now) directory }
{
    let mut entered = directory;
    for row in rows {
        entered = with(entered, *row);
    }
    entered
}

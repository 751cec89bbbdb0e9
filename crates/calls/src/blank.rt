// The empty directory.
ghost use Rattle.std.specs.Prelude.{◌≡◌, replicate};
ghost use Rattle.rules.specs.Entries.{empty_directory};

use rules::{Account, BIC, Csd, Directory, ISIN, Link, Pair, Security, Table};

// What stands in a table behind its count.
const BLANK_CSD: Csd = Csd {
    external: 0,
    bic: [0; BIC],
};

const BLANK_SECURITY: Security = Security { isin: [0; ISIN] };

const BLANK_ACCOUNT: Account = Account { csd: 0, kind: 0 };

const BLANK_PAIR: Pair = Pair {
    investor: 0,
    technical: 0,
    mirror: 0,
    omnibus: 0,
    served: 0,
};

const BLANK_LINK: Link = Link {
    security: 0,
    kind: 0,
    csd: 0,
    technical: 0,
    flag: 0,
    account: 0,
    first: 0,
    last: 0,
};

// A table with no row in use.
fn unused<T: Copy, const N: usize>(row: T) -> Table<T, N>
    ensures { result ≡ record { count = 0; rows = replicate N row } }
{
    Table {
        count: 0,
        rows: [row; N],
    }
}

// "An empty store has no row"
pub fn empty() -> Directory
    ensures { result ≡ empty_directory }
{
    Directory {
        csds: unused(BLANK_CSD),
        securities: unused(BLANK_SECURITY),
        accounts: unused(BLANK_ACCOUNT),
        pairs: unused(BLANK_PAIR),
        links: unused(BLANK_LINK),
    }
}

// Where the numbers of an index stand (specs/Index has what each means).
ghost use Rattle.std.specs.Prelude.{◌≡◌, ◌+◌, ◌*◌, ◌≤◌, ◌&&◌, cond, ltb};
ghost use Rattle.index.specs.Index.{index_size, number_at, with_number};

use rules::{ACCOUNTS, CSDS, LINKS, SECURITIES};

// How many rows each table has.
pub const CSD_COUNT: usize = 0;

pub const SECURITY_COUNT: usize = 1;

pub const ACCOUNT_COUNT: usize = 2;

pub const PAIR_COUNT: usize = 3;

pub const LINK_COUNT: usize = 4;

// By CSD: its type.
pub const TYPES: usize = 5;

// By account: its CSD, its kind.
pub const HOMES: usize = TYPES + CSDS;

pub const KINDS: usize = HOMES + ACCOUNTS;

// And the duo that it is in: one more than the account in the investor's books, 0 for no duo; the other account; investor and technical issuer.
pub const MIRRORS: usize = KINDS + ACCOUNTS;

pub const OMNIBUSES: usize = MIRRORS + ACCOUNTS;

pub const INVESTORS: usize = OMNIBUSES + ACCOUNTS;

pub const TECHNICALS: usize = INVESTORS + ACCOUNTS;

// By technical issuer and account served: one more than the account in the investor's books, 0 for no row.
pub const SERVED: usize = TECHNICALS + ACCOUNTS;

// By security and CSD: where their newest link stands, 0 for none.
pub const NEWEST: usize = SERVED + CSDS * ACCOUNTS;

// By security and CSD: 1 where an investor link for the security has it as technical issuer, else 0.
pub const TARGETS: usize = NEWEST + SECURITIES * CSDS;

// By link: its numbers.
pub const LINK_ROWS: usize = TARGETS + SECURITIES * CSDS;

// Where the next older link of the CSD for the security stands, 0 for none; the first and the last day; kind, flag, technical issuer and account.
pub const NEXT: usize = 0;

pub const FIRST: usize = 1;

pub const LAST: usize = 2;

pub const KIND: usize = 3;

pub const FLAG: usize = 4;

pub const TECHNICAL: usize = 5;

pub const ACCOUNT: usize = 6;

pub const LINK_NUMBERS: usize = 7;

// How many numbers an index has.
pub const INDEX: usize = LINK_ROWS + LINKS * LINK_NUMBERS;

// Where the numbers of the last link begin that it may have.
pub const LAST_ROW: u16 = (INDEX - LINK_NUMBERS) as u16;

// The number at a place, 0 behind the end.
pub fn entry(index: &[u16; INDEX], place: usize) -> u16
    ensures { result ≡ number_at index.now place }
{
    if place < INDEX {
        return index[place];
    }
    0
}

// The number of a row among those that stand from a place on, 0 beyond the table.
pub(crate) fn of_row(index: &[u16; INDEX], from: usize, row: usize, rows: usize) -> u16
    requires { from + rows ≤ index_size }
    ensures { result ≡ cond (ltb row rows) (number_at index.now (from + row)) 0 }
{
    if row < rows {
        return index[from + row];
    }
    0
}

// The number of a row and a column among those that stand row by row, 0 beyond the tables.
pub(crate) fn of_cell(
    index: &[u16; INDEX],
    from: usize,
    row: usize,
    rows: usize,
    column: usize,
    columns: usize,
) -> u16
    requires { from + rows * columns ≤ index_size }
    ensures { result ≡ cond (ltb row rows && ltb column columns) (number_at index.now (from + (row * columns + column))) 0 }
{
    if row < rows && column < columns {
        return index[from + (row * columns + column)];
    }
    0
}

// The number put at the place; nothing is put behind the end.
pub fn store(index: &mut [u16; INDEX], place: usize, value: u16)
    ensures { index.new ≡ with_number index.old place value }
{
    if place < INDEX {
        index[place] = value;
    }
}

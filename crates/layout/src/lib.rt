// The directory as five counts and the bytes of all rows, in use or not: CSDs, securities, accounts, pairs, links. A row has the bytes of
// the command that enters it.
#![tactic(auto)]

ghost use Rattle.std.specs.Prelude.{◌≡◌, ◌+◌, ◌*◌, ◌^◌, ◌<◌, ◌≤◌, ℕ, List, length, get_or};
ghost use Rattle.rules.specs.Chain.{step};
ghost use Rattle.rules.specs.Entries.{blank_account, blank_pair, blank_link};
ghost use Rattle.wire.specs.Operands.{listed};
ghost use Rattle.layout.specs.Layout.{directory_in};
ghost use Rattle.layout.specs.Layout.{csd_bytes, security_bytes, account_bytes, pair_bytes, link_bytes, step_bytes};
ghost use Rattle.layout.specs.Layout.{no_csd, no_security, counts_length, rows_length, bytes_in, bytes_of};
ghost use Rattle.layout.specs.Layout.{counts_of, filled, steps_put, Put};

use rules::{
    ACCOUNTS, Account, CSDS, Csd, Directory, LINKS, Link, PAIRS, Pair, SECURITIES, Security, Step,
    Steps, Table,
};
use std::array;
use wire::decoding::{FromBytes, decode};
use wire::operands::{ACCOUNT_WIDTH, CSD_WIDTH, LINK_WIDTH, PAIR_WIDTH, SECURITY_WIDTH};

// Bytes of a step.
pub const STEP_WIDTH: usize = 5;

// Where the rows of each table start: one table behind the other.
const CSD_ROWS: usize = 0;

const SECURITY_ROWS: usize = CSD_ROWS + CSDS * CSD_WIDTH;

const ACCOUNT_ROWS: usize = SECURITY_ROWS + SECURITIES * SECURITY_WIDTH;

const PAIR_ROWS: usize = ACCOUNT_ROWS + ACCOUNTS * ACCOUNT_WIDTH;

const LINK_ROWS: usize = PAIR_ROWS + PAIRS * PAIR_WIDTH;

// How many counts and bytes of rows there are.
pub const COUNTS: usize = 5;

pub const ROWS: usize = LINK_ROWS + LINKS * LINK_WIDTH;

// ---- reading: what is not there reads as 0

// All rows of a table, which start at index `start`.
fn read_table<T: FromBytes<W>, const W: usize, const N: usize>(
    count: usize,
    bytes: &[u8],
    start: usize,
) -> Table<T, N>
    requires { start + N * W < 2 ^ 64 }
    ensures { result ≡ record { count = count; rows = listed (λ i. T.read_at bytes.now (start + i * W)) N } }
{
    let rows = array::from_fn(
        |i: usize| -> T
            requires { start + i * W < 2 ^ 64 }
            ensures { result ≡ T.read_at bytes.entry.now (start + i * W) }
        { decode(bytes, start + i * W) },
    );
    Table { count, rows }
}

fn count_at(counts: &[usize], i: usize) -> usize
    ensures { result ≡ get_or counts.now i 0 }
{
    counts.get(i).copied().unwrap_or(0)
}

pub fn read_directory(counts: &[usize], bytes: &[u8]) -> Directory
    ensures { result ≡ directory_in counts.now bytes.now }
{
    Directory {
        csds: read_table(count_at(counts, 0), bytes, CSD_ROWS),
        securities: read_table(count_at(counts, 1), bytes, SECURITY_ROWS),
        accounts: read_table(count_at(counts, 2), bytes, ACCOUNT_ROWS),
        pairs: read_table(count_at(counts, 3), bytes, PAIR_ROWS),
        links: read_table(count_at(counts, 4), bytes, LINK_ROWS),
    }
}

// ---- writing: the bytes of a row; a number of two bytes is big-endian

trait ToBytes<const W: usize>: Copy {
    ghost bytes: { Self → List ℕ };

    // What a place behind the rows counts as.
    ghost blank: { Self };

    fn to_bytes(self) -> [u8; W]
        ensures { result ≡ bytes self };
}

impl ToBytes<CSD_WIDTH> for Csd {
    ghost bytes = { csd_bytes };

    ghost blank = { no_csd };

    fn to_bytes(self) -> [u8; CSD_WIDTH] {
        let mut bytes = [self.external; CSD_WIDTH];
        bytes[1..].copy_from_slice(&self.bic);
        bytes
    }
}

impl ToBytes<SECURITY_WIDTH> for Security {
    ghost bytes = { security_bytes };

    ghost blank = { no_security };

    fn to_bytes(self) -> [u8; SECURITY_WIDTH] {
        self.isin
    }
}

impl ToBytes<ACCOUNT_WIDTH> for Account {
    ghost bytes = { account_bytes };

    ghost blank = { blank_account };

    fn to_bytes(self) -> [u8; ACCOUNT_WIDTH] {
        [self.csd, self.kind]
    }
}

impl ToBytes<PAIR_WIDTH> for Pair {
    ghost bytes = { pair_bytes };

    ghost blank = { blank_pair };

    fn to_bytes(self) -> [u8; PAIR_WIDTH] {
        let mirror = self.mirror.to_be_bytes();
        let omnibus = self.omnibus.to_be_bytes();
        let served = self.served.to_be_bytes();
        [
            self.investor,
            self.technical,
            mirror[0],
            mirror[1],
            omnibus[0],
            omnibus[1],
            served[0],
            served[1],
        ]
    }
}

// Of its days, "Both stand last in 05, 2 bytes each."
impl ToBytes<LINK_WIDTH> for Link {
    ghost bytes = { link_bytes };

    ghost blank = { blank_link };

    fn to_bytes(self) -> [u8; LINK_WIDTH] {
        let account = self.account.to_be_bytes();
        let first = self.first.to_be_bytes();
        let last = self.last.to_be_bytes();
        [
            self.security,
            self.kind,
            self.csd,
            self.technical,
            self.flag,
            account[0],
            account[1],
            first[0],
            first[1],
            last[0],
            last[1],
        ]
    }
}

// CSD 1, accounts 2 and 2.
impl ToBytes<STEP_WIDTH> for Step {
    ghost bytes = { step_bytes };

    ghost blank = { step 0 0 0 };

    fn to_bytes(self) -> [u8; STEP_WIDTH] {
        let debited = self.debited.to_be_bytes();
        let credited = self.credited.to_be_bytes();
        [self.csd, debited[0], debited[1], credited[0], credited[1]]
    }
}

// Rows from index `start` on. What stands before and behind them stays.
fn put_rows<T: ToBytes<W>, const W: usize>(bytes: &mut [u8], start: usize, rows: &[T])
    requires { start + length rows.now * W ≤ length bytes.old }
    ensures { Put start (start + length rows.now * W) (bytes_in T.bytes T.blank W rows.now (length rows.now * W)) bytes.old bytes.new }
{
    for (i, row) in rows.iter().enumerate() {
        let at = start + i * W;
        bytes[at..at + W].copy_from_slice(&row.to_bytes());
    }
}

// ---- to buffers of any length: one that does not fit stays as it is

pub fn write_counts(counts: &mut [usize], directory: Directory)
    ensures { counts.new ≡ filled counts_length (counts_of directory) counts.old }
{
    if counts.len() == COUNTS {
        counts.copy_from_slice(&[
            directory.csds.count,
            directory.securities.count,
            directory.accounts.count,
            directory.pairs.count,
            directory.links.count,
        ]);
    }
}

pub fn write_rows(bytes: &mut [u8], directory: Directory)
    ensures { bytes.new ≡ filled rows_length (bytes_of directory) bytes.old }
{
    if bytes.len() == ROWS {
        put_rows(bytes, CSD_ROWS, &directory.csds.rows);
        put_rows(bytes, SECURITY_ROWS, &directory.securities.rows);
        put_rows(bytes, ACCOUNT_ROWS, &directory.accounts.rows);
        put_rows(bytes, PAIR_ROWS, &directory.pairs.rows);
        put_rows(bytes, LINK_ROWS, &directory.links.rows);
    }
}

// The steps that are counted, 5 bytes each. What stands behind them stays.
pub fn write_steps(bytes: &mut [u8], steps: Steps)
    ensures { bytes.new ≡ steps_put steps bytes.old }
{
    if let Some(rows) = steps.rows.get(..steps.count)
        && rows.len() * STEP_WIDTH <= bytes.len()
    {
        put_rows(bytes, 0, rows);
    }
}

// The rows of the examples' directories (specs/Directories has them).
ghost use Rattle.std.specs.Prelude.{◌≡◌, map};
ghost use Rattle.rules.specs.Entries.{empty_directory};
ghost use Rattle.examples.specs.Directories.{row_of, entering_all, worked_rows, wider_rows};

use crate::rows::{Row, with_all};
use desk::empty;
use rules::{Directory, ISSUANCE, MIRROR, OMNIBUS, PARTICIPANT};

// The worked example's CSDs, security and accounts, its pair and its links.
pub fn worked_rows() -> [Row; 11]
    ensures { map row_of result ≡ worked_rows }
{
    [
        Row::csd(0, b'0'),
        Row::csd(0, b'1'),
        Row::security(),
        Row::account(0, PARTICIPANT),
        Row::account(0, MIRROR),
        Row::account(1, OMNIBUS),
        Row::account(1, ISSUANCE),
        Row::account(1, PARTICIPANT),
        Row::issuer(1, 3),
        Row::pair(0, 1, 1, 2, 0),
        Row::investor(0, 1, true),
    ]
}

// After them: another participant of CSD 1, an investor CSD in it, and a CSD without link.
fn wider_rows() -> [Row; 9]
    ensures { map row_of result ≡ wider_rows }
{
    [
        Row::account(1, PARTICIPANT),
        Row::csd(0, b'2'),
        Row::csd(0, b'3'),
        Row::account(2, PARTICIPANT),
        Row::account(2, MIRROR),
        Row::account(1, OMNIBUS),
        Row::account(3, PARTICIPANT),
        Row::pair(2, 1, 7, 8, 6),
        Row::investor(2, 1, true),
    ]
}

// The worked example with two CSDs more.
pub fn wider() -> Directory
    ensures { result ≡ entering_all wider_rows (entering_all worked_rows empty_directory) }
{
    with_all(with_all(empty(), &worked_rows()), &wider_rows())
}

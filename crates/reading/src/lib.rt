// A directory read into what is kept of one: each row is judged and added as an entry is, in the order of soundness. Where a row is refused the directory is not
// sound.
#![tactic(auto)]

ghost use Rattle.std.specs.Prelude.{◌≡◌, map, take};
ghost use Rattle.std.specs.Result.{is_ok};
ghost use Rattle.rules.specs.Directory.{rows_of};
ghost use Rattle.rules.specs.Entries.{within_limits};
ghost use Rattle.reading.specs.Read.{Reads, in_order, read_rows, read_directory};

use entries::entries::{Keep, enter};
use refusals::Kept;
use rules::{ACCOUNTS, CSDS, Directory, LINKS, PAIRS, Refusal, SECURITIES};

// The first `count` rows of a table, up to the first that is refused.
fn read_rows<R: Keep>(rows: &[R], count: usize, kept: &mut Kept) -> Result<(), Refusal>
    ensures { Reads (read_rows (map R.as_row (take count rows.now)) kept.old) (is_ok result) kept.new }
{
    let used = count.min(rows.len());
    for row in &rows[..used] {
        enter(kept, *row)?;
    }
    Ok(())
}

// "counts are within limits"
fn within_limits(directory: &Directory) -> bool
    ensures { result ≡ within_limits directory.now }
{
    let csds = directory.csds.count <= CSDS;
    let securities = directory.securities.count <= SECURITIES;
    let accounts = directory.accounts.count <= ACCOUNTS;
    let pairs = directory.pairs.count <= PAIRS;
    let links = directory.links.count <= LINKS;
    csds & (securities & (accounts & (pairs & links)))
}

// The rows in use of the tables, one table behind the other.
fn read_tables(directory: &Directory, kept: &mut Kept) -> Result<(), Refusal>
    ensures { Reads (read_rows (in_order (rows_of directory.now)) kept.old) (is_ok result) kept.new }
{
    read_rows(&directory.csds.rows, directory.csds.count, kept)?;
    read_rows(&directory.securities.rows, directory.securities.count, kept)?;
    read_rows(&directory.accounts.rows, directory.accounts.count, kept)?;
    read_rows(&directory.pairs.rows, directory.pairs.count, kept)?;
    let links = read_rows(&directory.links.rows, directory.links.count, kept);
    links
}

// The whole directory. Read into what is kept of the empty one, it is sound exactly if the answer is true, and what is kept is then its own (specs/Read,
// ReadingSounds).
pub fn read(directory: &Directory, kept: &mut Kept) -> bool
    ensures { Reads (read_directory directory.now kept.old) result kept.new }
{
    if !within_limits(directory) {
        return false;
    }
    read_tables(directory, kept).is_ok()
}

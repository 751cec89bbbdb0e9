// The five entries: the answer, and the directory after it.
ghost use Rattle.std.specs.Prelude.{◌≡◌, ◌<◌};
ghost use Rattle.rules.specs.Numbers.{accepted_by};
ghost use Rattle.rules.specs.Entries.{csd_row, security_row, account_row, pair_row, link_row, add_row};
ghost use Rattle.rules.specs.Outcomes.{entered_on};
ghost use Rattle.calls.specs.Rooms.{HasRoom, with_row};

use crate::admit;
use entries::entries::Keep;
use refusals::Kept;
use rules::{Account, Answer, Csd, Directory, Entered, Link, Pair, Refusal, Security, Table};

// A row behind those in use of a table that has room.
fn put_row<T: Copy, const N: usize>(table: &mut Table<T, N>, row: T)
    requires { table.old.count < N }
    ensures { table.new ≡ with_row table.old row }
{
    table.rows[table.count] = row;
    table.count += 1;
}

// A row with its table.
trait Listed: Keep {
    fn list_in(self, directory: &mut Directory)
        requires { HasRoom (Self.as_row self) directory.old }
        ensures { directory.new ≡ add_row (Self.as_row self) directory.old };
}

impl Listed for Csd {
    fn list_in(self, directory: &mut Directory) {
        put_row(&mut directory.csds, self);
    }
}

impl Listed for Security {
    fn list_in(self, directory: &mut Directory) {
        put_row(&mut directory.securities, self);
    }
}

impl Listed for Account {
    fn list_in(self, directory: &mut Directory) {
        put_row(&mut directory.accounts, self);
    }
}

impl Listed for Pair {
    fn list_in(self, directory: &mut Directory) {
        put_row(&mut directory.pairs, self);
    }
}

impl Listed for Link {
    fn list_in(self, directory: &mut Directory) {
        put_row(&mut directory.links, self);
    }
}

// A refused row leaves the directory as it is; an accepted one is added.
fn enter_into<R: Listed>(directory: &mut Directory, row: R) -> Result<(), Refusal>
    ensures answer { accepted_by result ≡ (entered_on directory.old (R.as_row row)).answer }
    ensures left { directory.new ≡ (entered_on directory.old (R.as_row row)).directory }
{
    let mut kept = Kept::nothing();
    admit(false, *directory, &mut kept)?;
    row.refusal(&kept)?;
    row.list_in(directory);
    Ok(())
}

fn entered<R: Listed>(directory: Directory, row: R) -> Entered
    ensures { result ≡ entered_on directory (R.as_row row) }
{
    let mut next = directory;
    let outcome = enter_into(&mut next, row);
    Entered {
        answer: Answer::from(outcome),
        directory: next,
    }
}

// 01: a CSD.
pub fn enter_csd(directory: Directory, row: Csd) -> Entered
    ensures { result ≡ entered_on directory (csd_row row) }
{
    entered(directory, row)
}

// 02: a security.
pub fn enter_security(directory: Directory, row: Security) -> Entered
    ensures { result ≡ entered_on directory (security_row row) }
{
    entered(directory, row)
}

// 03: an account.
pub fn enter_account(directory: Directory, row: Account) -> Entered
    ensures { result ≡ entered_on directory (account_row row) }
{
    entered(directory, row)
}

// 0E: a pair.
pub fn enter_pair(directory: Directory, row: Pair) -> Entered
    ensures { result ≡ entered_on directory (pair_row row) }
{
    entered(directory, row)
}

// 05: a link.
pub fn enter_link(directory: Directory, row: Link) -> Entered
    ensures { result ≡ entered_on directory (link_row row) }
{
    entered(directory, row)
}

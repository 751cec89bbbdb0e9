// What document 01 has "At the end": a total for each security, and the cash.
#![tactic(auto)]

ghost use Rattle.text.specs.Appended.{Appended};
ghost use Rattle.ending.specs.Ending.{totals_in, securities_in, ending_in};

use holdings::totals::{cash_total, security_total};
use identifiers::names::isin_of;
use index::places::{SECURITY_COUNT, entry};
use refusals::kept::Kept;
use rules::{Cents, SECURITIES, Units};
use text::lines::{put_cash, put_total};

// "per security `total`, ISIN, sum of participant positions", 0 where the sum is refused.
fn put_totals(out: &mut [u8], at: usize, kept: &Kept, positions: &[i64]) -> usize
    ensures { Appended out.old at out.new result
        (totals_in kept.now positions.now (securities_in kept.now.numbers)) }
{
    let count = usize::from(entry(&kept.numbers, SECURITY_COUNT)).min(SECURITIES);
    let mut end = at.min(out.len());
    for security in 0..count as u8 {
        let isin = isin_of(&kept.names, security);
        let sum = security_total(&kept.numbers, positions, security).unwrap_or(Units(0));
        end = put_total(out, end, isin, sum);
    }
    end
}

// What stands "At the end"; cash is 0 where its sum is refused.
pub fn put_ending(out: &mut [u8], at: usize, kept: &Kept, positions: &[i64], cash: &[i64]) -> usize
    ensures { Appended out.old at out.new result (ending_in kept.now positions.now cash.now) }
{
    let totals = put_totals(out, at, kept, positions);
    let sum = cash_total(cash).unwrap_or(Cents(0));
    put_cash(out, totals, sum)
}

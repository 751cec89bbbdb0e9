// The first refusal that applies, in the order of places, of the calls that book.
ghost use Rattle.std.specs.Prelude.{◌≡◌};
ghost use Rattle.rules.specs.Numbers.{refused_by};
ghost use Rattle.rules.specs.Booking.{out_of_range};
ghost use Rattle.booking.specs.Refusals.{book_refusal};

use rules::{LIMIT, Refusal};

// 7 of a quantity, and of an amount paid in or out: "1 to 10^15".
pub(crate) fn out_of_range(n: u64) -> bool
    ensures { result ≡ out_of_range n }
{
    !(1..=LIMIT).contains(&n)
}

// The first of 20, 21 and 22, if one applies.
pub(crate) fn book_refusal(units: bool, cash: bool, beyond: bool) -> Result<(), Refusal>
    ensures { refused_by result ≡ book_refusal units cash beyond }
{
    if units {
        return Err(Refusal::SecuritiesShort);
    }
    if cash {
        return Err(Refusal::CashShort);
    }
    if beyond {
        return Err(Refusal::Beyond);
    }
    Ok(())
}

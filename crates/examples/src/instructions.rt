// A half of an instruction over the examples' one security.
ghost use Rattle.std.specs.Prelude.{◌≡◌};

use rules::Half;

pub fn half(account: u16, counterpart: u8, quantity: u64, amount: u64) -> Half
    ensures { result
        ≡ record { account = account; counterpart = counterpart; security = 0; quantity = quantity; amount = amount } }
{
    Half {
        account,
        counterpart,
        security: 0,
        quantity,
        amount,
    }
}

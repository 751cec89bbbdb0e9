// The ISIN's check digit: the sum is made while the characters are read, from the left, and no digit is written down.
ghost use Rattle.std.specs.Prelude.{◌≡◌, ◌+◌, ◌-◌, ◌≤◌, take};
ghost use Rattle.rules.specs.Identifiers.{read_digit, read_character, isin_sum, isin_checks};
ghost use Rattle.identifiers.specs.Sums.{sums_of};

use rules::ISIN;

// The sum of the digits read so far, as it is if the digit read last is doubled, and if it is not.
#[derive(Clone, Copy)]
struct Sums {
    last: u64,
    other: u64,
}

impl Sums {
    // One digit more: the sums change places. The bounds only say that no sum wraps.
    fn read_digit(self, d: u8) -> Sums
        requires { self.last + self.other ≤ 10000 }
        ensures read { sums_of result ≡ read_digit d (sums_of self) }
        ensures small { result.last + result.other ≤ self.last + self.other + 400 }
    {
        let n = u64::from(d);
        let doubled = 2 * n / 10 + 2 * n % 10;
        Sums {
            last: self.other + doubled,
            other: self.last + n,
        }
    }

    // "Letters become 10 to 35, each written as two digits"; a digit is itself.
    fn read_character(self, c: u8) -> Sums
        requires { self.last + self.other ≤ 9000 }
        ensures read { sums_of result ≡ read_character c (sums_of self) }
        ensures small { result.last + result.other ≤ self.last + self.other + 800 }
    {
        if c.is_ascii_uppercase() {
            let number = c - b'A' + 10;
            return self.read_digit(number / 10).read_digit(number % 10);
        }
        self.read_digit(c.saturating_sub(b'0'))
    }
}

// The sum of the characters before the check digit, made while reading them.
fn isin_sum(isin: [u8; ISIN]) -> u64
    ensures sum { result ≡ isin_sum (take 11 isin) }
    ensures small { result ≤ 9000 }
{
    let mut s = Sums { last: 0, other: 0 };
    for c in &isin[..11] {
        s = s.read_character(*c);
    }
    s.last
}

// "with the check digit the sum is a multiple of 10"
#[tactic(auto, unfolding(rules::specs::Identifiers::isin_checks))]
pub fn isin_checks(isin: [u8; ISIN]) -> bool
    ensures { result ≡ isin_checks isin }
{
    let check = u64::from(isin[11].saturating_sub(b'0'));
    (isin_sum(isin) + check) % 10 == 0
}

// What BIC and ISIN are made of.
ghost use Rattle.std.specs.Prelude.{◌≡◌};
ghost use Rattle.std.specs.List.{list_all};
ghost use Rattle.rules.specs.Identifiers.{capital_or_digit, is_bic, is_isin};

use rules::{BIC, ISIN};

// Whether the bytes are capitals or digits.
fn are_capitals_or_digits(s: &[u8]) -> bool
    ensures { result ≡ list_all capital_or_digit s.now }
{
    s.iter()
        .all(|c| c.is_ascii_uppercase() || c.is_ascii_digit())
}

// "BIC of 11 capitals or digits"
pub fn is_bic(bic: [u8; BIC]) -> bool
    ensures { result ≡ is_bic bic }
{
    are_capitals_or_digits(&bic)
}

// "two capital letters, nine capitals or digits, one check digit"
pub fn is_isin(isin: [u8; ISIN]) -> bool
    ensures { result ≡ is_isin isin }
{
    let country = isin[0].is_ascii_uppercase() & isin[1].is_ascii_uppercase();
    let number = are_capitals_or_digits(&isin[2..11]);
    country & number & isin[11].is_ascii_digit()
}

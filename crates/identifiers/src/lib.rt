// BIC and ISIN: what they are made of, the ISIN's check digit, and those that are entered.
#![tactic(auto)]

pub mod forms; // forms.rt: what BIC and ISIN are made of
pub mod check_digit; // check_digit.rt: the ISIN's sum, added up while reading, and its check digit
pub mod names; // names.rt: the identifiers that are entered, as bytes

// A row of a directory, and what refuses it by what is kept of the rows before it.
ghost use Rattle.std.specs.Prelude.{◌≡◌};
ghost use Rattle.rules.specs.Numbers.{refused_by};
ghost use Rattle.rules.specs.Entries.{Row, csd_row, security_row, account_row};
ghost use Rattle.refusals.specs.Kept.{refusal_in};

use crate::kept::Kept;
use identifiers::check_digit::isin_checks;
use identifiers::forms::{is_bic, is_isin};
use identifiers::names::{bic_entered, isin_entered};
use index::lookups::{accounts_full, is_csd, is_external};
use index::places::{CSD_COUNT, SECURITY_COUNT, entry};
use rules::{Account, CSDS, Csd, ISSUANCE, Refusal, SECURITIES, Security};

pub trait Entry: Copy {
    // The row that the rules know.
    ghost as_row: { Self → Row };

    // The first refusal that applies.
    fn refusal(self, kept: &Kept) -> Result<(), Refusal>
        ensures { refused_by result ≡ refusal_in kept.now (as_row self) };
}

// 01: type and BIC in their lists (7), the BIC not entered (9).
impl Entry for Csd {
    ghost as_row = { csd_row };

    fn refusal(self, kept: &Kept) -> Result<(), Refusal> {
        let index = &kept.numbers;
        if CSDS <= (entry(index, CSD_COUNT) as usize) {
            return Err(Refusal::TableFull);
        }
        let bic = self.bic;
        if (1 < self.external) | !is_bic(bic) {
            return Err(Refusal::OutOfRange);
        }
        if bic_entered(&kept.numbers, &kept.names, bic) {
            return Err(Refusal::AlreadyEntered);
        }
        Ok(())
    }
}

// 02: an ISIN (7) with its check digit (8), not entered (9).
impl Entry for Security {
    ghost as_row = { security_row };

    fn refusal(self, kept: &Kept) -> Result<(), Refusal> {
        let index = &kept.numbers;
        if SECURITIES <= (entry(index, SECURITY_COUNT) as usize) {
            return Err(Refusal::TableFull);
        }
        let isin = self.isin;
        if !is_isin(isin) {
            return Err(Refusal::OutOfRange);
        }
        if !isin_checks(isin) {
            return Err(Refusal::CheckDigit);
        }
        if isin_entered(&kept.numbers, &kept.names, isin) {
            return Err(Refusal::AlreadyEntered);
        }
        Ok(())
    }
}

// 03: of a row of CSDs (6), of a kind (7), in T2S (10).
impl Entry for Account {
    ghost as_row = { account_row };

    fn refusal(self, kept: &Kept) -> Result<(), Refusal> {
        let index = &kept.numbers;
        if accounts_full(index) {
            return Err(Refusal::TableFull);
        }
        if !is_csd(index, self.csd) {
            return Err(Refusal::NoRow);
        }
        if ISSUANCE < self.kind {
            return Err(Refusal::OutOfRange);
        }
        if is_external(index, self.csd) {
            return Err(Refusal::WrongAccount);
        }
        Ok(())
    }
}

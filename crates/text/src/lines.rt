// The lines of document 01's "Commands and program".
ghost use Rattle.rules.specs.Stream.{step_line, total_line, cash_line};
ghost use Rattle.text.specs.Appended.{Appended};

use crate::pieces::{put_counted, put_signed, put_word};
use rules::{Cents, ISIN, Step, Units};

// "a line per step: `-`, CSD, debited, credited"
pub fn put_step(out: &mut [u8], at: usize, step: Step) -> usize
    ensures { Appended out.old at out.new result (step_line step) }
{
    let a = put_counted(out, at, b"- ", step.csd as u64);
    let b = put_counted(out, a, b" ", step.debited as u64);
    let c = put_counted(out, b, b" ", step.credited as u64);
    put_word(out, c, b"\n")
}

// "per security `total`, ISIN, sum of participant positions"
pub fn put_total(out: &mut [u8], at: usize, isin: [u8; ISIN], sum: Units) -> usize
    ensures { Appended out.old at out.new result (total_line isin sum) }
{
    let a = put_word(out, at, b"total ");
    let b = put_word(out, a, &isin);
    let c = put_word(out, b, b" ");
    let d = put_signed(out, c, sum.0);
    put_word(out, d, b"\n")
}

// "then `cash` and its sum"
pub fn put_cash(out: &mut [u8], at: usize, sum: Cents) -> usize
    ensures { Appended out.old at out.new result (cash_line sum) }
{
    let a = put_word(out, at, b"cash ");
    let b = put_signed(out, a, sum.0);
    put_word(out, b, b"\n")
}

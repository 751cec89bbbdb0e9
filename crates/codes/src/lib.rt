// An export's command byte and operands judged, and a desk's answer as a number: 256 for each kind before it, and what it carries, at most 255.
#![tactic(auto)]

ghost use Rattle.std.specs.Prelude.{◌≡◌, ◌<◌};
ghost use Rattle.rules.specs.Numbers.{refused_by};
ghost use Rattle.rules.specs.Tests.{first_of};
ghost use Rattle.rules.specs.Calls.{is_accepted};
ghost use Rattle.codes.specs.Codes.{capped, code_of};
ghost use Rattle.codes.specs.Read.{is_entry, is_move, width, read_conditions};

use rules::{Answer, Refusal};
use wire::commands::Command;

// ---- answers

fn small(count: usize) -> u64
    ensures { (result ≡ capped count) × (result < 256) }
{
    count.min(255) as u64
}

// Accepted 0, Booked 256 and its steps, Chained 512 and its steps, Refused 768 and the number.
pub fn code_of(answer: Answer) -> u64
    ensures { result ≡ code_of answer }
{
    match answer {
        Answer::Accepted => 0,
        Answer::Booked(steps) => 256 + small(steps),
        Answer::Chained(steps) => 512 + small(steps),
        Answer::Refused(number) => 768 + u64::from(number),
    }
}

pub fn accepted(answer: Answer) -> bool
    ensures { result ≡ is_accepted answer }
{
    matches!(
        answer,
        Answer::Accepted | Answer::Booked(_) | Answer::Chained(_)
    )
}

// ---- a command byte and its operands

pub fn is_entry(tag: u8) -> bool
    ensures { result ≡ is_entry tag }
{
    matches!(
        Command::try_from(tag),
        Ok(
            Command::EnterCsd
                | Command::EnterSecurity
                | Command::EnterAccount
                | Command::EnterLink
                | Command::EnterPair
        )
    )
}

pub fn is_move(tag: u8) -> bool
    ensures { result ≡ is_move tag }
{
    matches!(
        Command::try_from(tag),
        Ok(Command::BringIn | Command::TakeOut | Command::PayIn | Command::PayOut)
    )
}

// How many operand bytes a command byte asks for.
pub fn width(tag: u8) -> usize
    ensures { result ≡ width tag }
{
    Command::try_from(tag).map_or(0, Command::width)
}

// A byte that the export does not know, or operands that are cut short.
pub fn read_refusal(known: bool, tag: u8, bytes: &[u8]) -> Result<(), Refusal>
    ensures { refused_by result ≡ first_of (read_conditions known tag bytes.now) }
{
    if !known {
        return Err(Refusal::UnknownByte);
    }
    if bytes.len() < width(tag) {
        return Err(Refusal::CutShort);
    }
    Ok(())
}

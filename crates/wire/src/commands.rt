// Commands: one byte, then its operands.
ghost use Rattle.std.specs.Prelude.{◌≡◌};
ghost use Rattle.std.proofs.Math.Option.{some};
ghost use Rattle.rules.specs.Stream.{width_of};
ghost use Rattle.wire.specs.Commands.{byte_of, Reads, found, next_at};

use crate::operands::{
    ACCOUNT_WIDTH, CSD_WIDTH, DAY_WIDTH, HALF_WIDTH, LINK_WIDTH, MOVE_WIDTH, PAIR_WIDTH,
    PAYMENT_WIDTH, SECURITY_WIDTH, SIDED_HALF_WIDTH,
};

// Each command with its byte. "04 becomes an unknown byte"; "Command 0E enters the longer row", a pair.
#[derive(Clone, Copy, Debug, PartialEq, Eq)]
pub enum Command {
    EnterCsd = 1,
    EnterSecurity = 2,
    EnterAccount = 3,
    EnterLink = 5,
    BringIn = 6,
    TakeOut = 7,
    PayIn = 8,
    PayOut = 9,
    Settle = 10,
    Derive = 11,
    SettleSided = 12,
    DeriveSided = 13,
    EnterPair = 14,
}

// A byte that names no command.
#[derive(Clone, Copy, Debug, PartialEq, Eq)]
pub struct UnknownByte(pub u8);

impl TryFrom<u8> for Command {
    type Error = UnknownByte;

    ghost try_from_gives = { Reads };

    fn try_from(byte: u8) -> Result<Command, UnknownByte> {
        match byte {
            1 => Ok(Command::EnterCsd),
            2 => Ok(Command::EnterSecurity),
            3 => Ok(Command::EnterAccount),
            5 => Ok(Command::EnterLink),
            6 => Ok(Command::BringIn),
            7 => Ok(Command::TakeOut),
            8 => Ok(Command::PayIn),
            9 => Ok(Command::PayOut),
            10 => Ok(Command::Settle),
            11 => Ok(Command::Derive),
            12 => Ok(Command::SettleSided),
            13 => Ok(Command::DeriveSided),
            14 => Ok(Command::EnterPair),
            _ => Err(UnknownByte(byte)),
        }
    }
}

impl Command {
    // How many operand bytes follow its byte.
    pub fn width(self) -> usize
        ensures { width_of (byte_of self) ≡ some result }
    {
        match self {
            Command::EnterCsd => CSD_WIDTH,
            Command::EnterSecurity => SECURITY_WIDTH,
            Command::EnterAccount => ACCOUNT_WIDTH,
            Command::EnterLink => LINK_WIDTH,
            Command::BringIn | Command::TakeOut => MOVE_WIDTH,
            Command::PayIn | Command::PayOut => PAYMENT_WIDTH,
            Command::Settle | Command::Derive => 2 * HALF_WIDTH + DAY_WIDTH,
            Command::SettleSided | Command::DeriveSided => 2 * SIDED_HALF_WIDTH + DAY_WIDTH,
            Command::EnterPair => PAIR_WIDTH,
        }
    }
}

// What stands at a place of the input: its end; a byte that names no command (refusal 1); a command whose operands are cut short (2); or a
// command, whose operands are the bytes from `start` up to `end`, where the next one starts.
#[derive(Clone, Copy, Debug, PartialEq, Eq)]
pub enum Next {
    End,
    Unknown,
    Cut,
    Command {
        command: Command,
        start: usize,
        end: usize,
    },
}

pub fn next_at(input: &[u8], at: usize) -> Next
    ensures { found result ≡ next_at input.now at }
{
    let Some(byte) = input.get(at) else {
        return Next::End;
    };
    let Ok(command) = Command::try_from(*byte) else {
        return Next::Unknown;
    };
    let start = at + 1;
    let width = command.width();
    if input.len() - start < width {
        return Next::Cut;
    }
    Next::Command {
        command,
        start,
        end: start + width,
    }
}

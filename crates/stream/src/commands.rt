// Commands obeyed: the operands decoded, and the call made over what is held. Lists lent and soundness are not judged here, since a stream's store fits
// and is sound at every command (proofs/Turned).
ghost use Rattle.std.specs.Prelude.{◌≡◌};
ghost use Rattle.rules.specs.Calls.{Halves, enter, move, pay, settle, derive};
ghost use Rattle.rules.specs.Stream.{call_of, program_steps};
ghost use Rattle.halves.specs.Halves.{in_order};
ghost use Rattle.booking.specs.Moves.{way_of};
ghost use Rattle.wire.specs.Commands.{byte_of};
ghost use Rattle.stream.specs.Obeyed.{nothing_held, Does, Whole, way_for, halves_for, day_for, instruction_for};

use booking::moves::move_securities;
use booking::payments::move_cash;
use booking::settling::settle;
use booking::way::Way;
use chain::derivation::derive;
use chain::step_list::STEP_NUMBERS;
use entries::entries::{Keep, enter};
use halves::{InOrder, in_order};
use refusals::Kept;
use rules::{ACCOUNTS, Answer, POSITIONS};
use wire::commands::Command;
use wire::operands::{
    Move, Payment, decode_account, decode_csd, decode_day, decode_delivering, decode_first,
    decode_link, decode_move, decode_pair, decode_payment, decode_receiving, decode_second,
    decode_security, decode_sided_day,
};

// What a stream holds from one command to the next: what is kept of its directory, its positions, its cash and its step list.
#[derive(Drop)]
pub(crate) struct Held {
    pub(crate) kept: Kept,
    pub(crate) positions: [i64; POSITIONS],
    pub(crate) cash: [i64; ACCOUNTS],
    pub(crate) steps: [u16; STEP_NUMBERS],
}

// Into the books, or out of them, for 06 to 09.
fn way_of(command: Command) -> Way
    ensures { way_of result ≡ way_for command }
{
    match command {
        Command::BringIn | Command::PayIn => Way::Incoming,
        _ => Way::Outgoing,
    }
}

// The halves of 0A to 0D: "delivering first", or with their sides.
fn halves_of(command: Command, operands: &[u8]) -> InOrder
    ensures { result ≡ in_order (halves_for command operands.now) }
{
    match command {
        Command::SettleSided | Command::DeriveSided => {
            in_order(decode_first(operands), decode_second(operands))
        }
        _ => InOrder::delivering_first(decode_delivering(operands), decode_receiving(operands)),
    }
}

// The day behind them.
fn day_of(command: Command, operands: &[u8]) -> u16
    ensures { result ≡ day_for command operands.now }
{
    match command {
        Command::SettleSided | Command::DeriveSided => decode_sided_day(operands),
        _ => decode_day(operands),
    }
}

impl Held {
    // Before the first command.
    pub(crate) fn nothing() -> Held
        ensures { result ≡ nothing_held }
    {
        Held {
            kept: Kept::nothing(),
            positions: [0; POSITIONS],
            cash: [0; ACCOUNTS],
            steps: [0; STEP_NUMBERS],
        }
    }

    // A row entered.
    fn enter<R: Keep>(&mut self, row: R) -> Answer
        ensures { Does (enter (R.Entry.as_row row)) self.old result self.new }
    {
        Answer::from(enter(&mut self.kept, row))
    }

    // Securities brought in, or taken out.
    fn move_units(&mut self, way: Way, asked: Move) -> Answer
        ensures { Does (move (way_of way) asked.account asked.security asked.quantity asked.day) self.old result self.new }
    {
        Answer::from(move_securities(
            &self.kept.numbers,
            &mut self.positions,
            way,
            asked.account,
            asked.security,
            asked.quantity,
            asked.day,
        ))
    }

    // Cash paid in, or paid out.
    fn move_money(&mut self, way: Way, asked: Payment) -> Answer
        ensures { Does (pay (way_of way) asked.account asked.amount) self.old result self.new }
    {
        Answer::from(move_cash(
            &self.kept.numbers,
            &mut self.cash,
            way,
            asked.account,
            asked.amount,
        ))
    }

    // Two halves settled on a day.
    fn settle(&mut self, halves: InOrder, day: u16) -> Answer
        ensures { (hs : Halves) → halves ≡ in_order hs → Does (settle hs day program_steps) self.old result self.new }
    {
        Answer::booked(settle(
            &self.kept.numbers,
            &mut self.positions,
            &mut self.cash,
            &mut self.steps,
            halves,
            day,
        ))
    }

    // Their chain derived.
    fn derive(&mut self, halves: InOrder, day: u16) -> Answer
        ensures { (hs : Halves) → halves ≡ in_order hs → Does (derive hs day program_steps) self.old result self.new }
    {
        Answer::chained(derive(&self.kept.numbers, &mut self.steps, halves, day))
    }

    // 0A to 0D. Halves and day are read once for all of them: of what is called at one place alone the compiler makes no call.
    fn instruct(&mut self, command: Command, operands: &[u8]) -> Answer
        ensures { Does (instruction_for command operands.now) self.old result self.new }
    {
        let halves = halves_of(command, operands);
        let day = day_of(command, operands);
        match command {
            Command::Settle | Command::SettleSided => self.settle(halves, day),
            _ => self.derive(halves, day),
        }
    }

    // A command, where its operands are whole.
    pub(crate) fn obey(&mut self, command: Command, operands: &[u8]) -> Answer
        ensures { Whole (byte_of command) operands.now → Does (call_of (byte_of command) operands.now) self.old result self.new }
    {
        match command {
            Command::EnterCsd => self.enter(decode_csd(operands)),
            Command::EnterSecurity => self.enter(decode_security(operands)),
            Command::EnterAccount => self.enter(decode_account(operands)),
            Command::EnterLink => self.enter(decode_link(operands)),
            Command::BringIn | Command::TakeOut => {
                self.move_units(way_of(command), decode_move(operands))
            }
            Command::PayIn | Command::PayOut => {
                self.move_money(way_of(command), decode_payment(operands))
            }
            Command::Settle | Command::Derive | Command::SettleSided | Command::DeriveSided =>
                self.instruct(command, operands),
            Command::EnterPair => self.enter(decode_pair(operands)),
        }
    }
}

// The calls, told by the byte of the command in the stream, with the bytes of its operands. An answer is a number: 256 for each kind before it,
// and what it carries, at most 255. Counts and rows that do not stand for a directory are answered 1280, before all else; then come 1 and 2, by the
// byte and its operands, and then what the desk's call answers. On a refusal everything lent is as it was.
ghost use Rattle.std.specs.Prelude.{◌≡◌, true, [], length, ◌+◌, ◌<◌};
ghost use Rattle.std.proofs.Math.Option.{some};
ghost use Rattle.rules.specs.declared.answer.Answer.TheVariants.{Refused};
ghost use Rattle.rules.specs.Numbers.{number};
ghost use Rattle.rules.specs.Calls.{desk};
ghost use Rattle.rules.specs.Stream.{width_of, call_of, transcript, Printed};
ghost use Rattle.rules.specs.Outcomes.{holding, settlement_on, derivation_on, blanks, reply_of};
ghost use Rattle.wire.specs.Operands.{halves_in, day_in};
ghost use Rattle.layout.specs.Layout.{steps_put};
ghost use Rattle.codes.specs.Codes.{code_of};
ghost use Rattle.codes.specs.Read.{is_entry, is_move};
ghost use Rattle.probe.specs.Exports.{is_settlement, is_derivation, entered_by};
ghost use Rattle.probe.specs.Exports.{Enters, Moves, Settles, Derives, TotalsUnits, TotalsCents};

use codes::{accepted, code_of, is_entry, is_move, read_refusal, width};
use layout::{COUNTS, ROWS, STEP_WIDTH, read_directory, write_counts, write_rows, write_steps};
use rules::{Answer, Directory, Entered, Refusal, Reply};
use wire::commands::Command;
use wire::operands;

// Counts, rows or the place of a sum do not fit.
const MISFIT: u64 = 1280;

// A sum is given.
const SUM: u64 = 1024;

fn refused(refusal: Refusal) -> u64
    ensures { result ≡ code_of (Refused (number refusal)) }
{
    code_of(Answer::Refused(u8::from(refusal)))
}

// The bytes that are asked for, as C hands them in.
const ENTER_CSD: u8 = Command::EnterCsd as u8;

const ENTER_SECURITY: u8 = Command::EnterSecurity as u8;

const ENTER_ACCOUNT: u8 = Command::EnterAccount as u8;

const ENTER_PAIR: u8 = Command::EnterPair as u8;

const BRING_IN: u8 = Command::BringIn as u8;

const TAKE_OUT: u8 = Command::TakeOut as u8;

const PAY_IN: u8 = Command::PayIn as u8;

// ---- 01 to 03, 05 and 0E

fn entry(directory: Directory, tag: u8, operands: &[u8]) -> Entered
    requires { (is_entry tag ≡ true) × (width_of tag ≡ some (length operands.now)) }
    ensures { result ≡ entered_by (desk (call_of tag operands.now) (holding directory [] [])) }
{
    if tag == ENTER_CSD {
        return desk::enter_csd(directory, operands::decode_csd(operands));
    }
    if tag == ENTER_SECURITY {
        return desk::enter_security(directory, operands::decode_security(operands));
    }
    if tag == ENTER_ACCOUNT {
        return desk::enter_account(directory, operands::decode_account(operands));
    }
    if tag == ENTER_PAIR {
        return desk::enter_pair(directory, operands::decode_pair(operands));
    }
    desk::enter_link(directory, operands::decode_link(operands))
}

// An accepted entry makes the counts and rows those of the directory after it.
#[unsafe(no_mangle)]
pub extern "C" fn fluzzam_enter(counts: &mut [usize], rows: &mut [u8], tag: u8, bytes: &[u8]) -> u64
    ensures { Enters counts.old rows.old tag bytes.now result counts.new rows.new }
{
    if counts.len() != COUNTS {
        return MISFIT;
    }
    if rows.len() != ROWS {
        return MISFIT;
    }
    if let Err(refusal) = read_refusal(is_entry(tag), tag, bytes) {
        return refused(refusal);
    }
    let end = width(tag);
    let directory = read_directory(counts, rows);
    let entered = entry(directory, tag, &bytes[..end]);
    let answer = entered.answer;
    if !accepted(answer) {
        return code_of(answer);
    }
    write_counts(counts, entered.directory);
    write_rows(rows, entered.directory);
    code_of(answer)
}

// ---- 06 to 09

fn movement(
    directory: Directory,
    positions: &mut [i64],
    cash: &mut [i64],
    tag: u8,
    operands: &[u8],
) -> Answer
    requires { is_move tag ≡ true }
    ensures { (result ≡ (desk (call_of tag operands.now) (holding directory positions.old cash.old)).answer)
        × (positions.new ≡ (desk (call_of tag operands.now) (holding directory positions.old cash.old)).store.positions)
        × (cash.new ≡ (desk (call_of tag operands.now) (holding directory positions.old cash.old)).store.cash) }
{
    if tag == BRING_IN {
        let x = operands::decode_move(operands);
        return desk::bring_in(
            directory, positions, x.account, x.security, x.quantity, x.day,
        );
    }
    if tag == TAKE_OUT {
        let x = operands::decode_move(operands);
        return desk::take_out(
            directory, positions, x.account, x.security, x.quantity, x.day,
        );
    }
    let x = operands::decode_payment(operands);
    if tag == PAY_IN {
        return desk::pay_in(directory, cash, x.account, x.amount);
    }
    desk::pay_out(directory, cash, x.account, x.amount)
}

#[unsafe(no_mangle)]
pub extern "C" fn fluzzam_move(
    counts: &[usize],
    rows: &[u8],
    positions: &mut [i64],
    cash: &mut [i64],
    tag: u8,
    bytes: &[u8],
) -> u64
    ensures { Moves counts.now rows.now positions.old cash.old tag bytes.now
        result positions.new cash.new }
{
    if counts.len() != COUNTS {
        return MISFIT;
    }
    if rows.len() != ROWS {
        return MISFIT;
    }
    if let Err(refusal) = read_refusal(is_move(tag), tag, bytes) {
        return refused(refusal);
    }
    let end = width(tag);
    let directory = read_directory(counts, rows);
    code_of(movement(directory, positions, cash, tag, &bytes[..end]))
}

// ---- 0A to 0D

// Two halves booked on their day, delivering first or with their sides, as the byte has them.
fn settled(
    directory: Directory,
    positions: &mut [i64],
    cash: &mut [i64],
    lent: usize,
    tag: u8,
    operands: &[u8],
) -> Reply
    ensures { (result ≡ reply_of (settlement_on directory positions.old cash.old (blanks lent) (halves_in tag operands.now)
        (day_in tag operands.now)))
        × (positions.new
        ≡ (settlement_on directory positions.old cash.old (blanks lent) (halves_in tag operands.now)
        (day_in tag operands.now)).store.positions)
        × (cash.new
        ≡ (settlement_on directory positions.old cash.old (blanks lent) (halves_in tag operands.now)
        (day_in tag operands.now)).store.cash) }
{
    if tag < 12 {
        let delivering = operands::decode_delivering(operands);
        let receiving = operands::decode_receiving(operands);
        let day = operands::decode_day(operands);
        return desk::settle_reply(directory, positions, cash, lent, delivering, receiving, day);
    }
    let first = operands::decode_first(operands);
    let second = operands::decode_second(operands);
    let day = operands::decode_sided_day(operands);
    desk::settle_sided_reply(directory, positions, cash, lent, first, second, day)
}

// Their chain only.
fn derived(directory: Directory, lent: usize, tag: u8, operands: &[u8]) -> Reply
    ensures { result ≡ reply_of (derivation_on directory (blanks lent) (halves_in tag operands.now) (day_in tag operands.now)) }
{
    if tag < 12 {
        let delivering = operands::decode_delivering(operands);
        let receiving = operands::decode_receiving(operands);
        let day = operands::decode_day(operands);
        return desk::derive_reply(directory, lent, delivering, receiving, day);
    }
    let first = operands::decode_first(operands);
    let second = operands::decode_second(operands);
    let day = operands::decode_sided_day(operands);
    desk::derive_sided_reply(directory, lent, first, second, day)
}

fn replied(steps: &mut [u8], reply: Reply) -> u64
    ensures { (result ≡ code_of reply.answer) × (steps.new ≡ steps_put reply.steps steps.old) }
{
    write_steps(steps, reply.steps);
    let answer = reply.answer;
    code_of(answer)
}

// A step is lent for each five bytes of `steps`; the K steps of the chain go to its front.
fn settle(
    counts: &[usize],
    rows: &[u8],
    positions: &mut [i64],
    cash: &mut [i64],
    tag: u8,
    bytes: &[u8],
    steps: &mut [u8],
) -> u64
    requires { is_settlement tag ≡ true }
    ensures { Settles tag counts.now rows.now positions.old cash.old bytes.now
        steps.old result positions.new cash.new steps.new }
{
    if counts.len() != COUNTS {
        return MISFIT;
    }
    if rows.len() != ROWS {
        return MISFIT;
    }
    let end = width(tag);
    if bytes.len() < end {
        return refused(Refusal::CutShort);
    }
    let directory = read_directory(counts, rows);
    let lent = steps.len() / STEP_WIDTH;
    let reply = settled(directory, positions, cash, lent, tag, &bytes[..end]);
    replied(steps, reply)
}

// Likewise.
fn derive(counts: &[usize], rows: &[u8], tag: u8, bytes: &[u8], steps: &mut [u8]) -> u64
    requires { is_derivation tag ≡ true }
    ensures { Derives tag counts.now rows.now bytes.now steps.old result steps.new }
{
    if counts.len() != COUNTS {
        return MISFIT;
    }
    if rows.len() != ROWS {
        return MISFIT;
    }
    let end = width(tag);
    if bytes.len() < end {
        return refused(Refusal::CutShort);
    }
    let directory = read_directory(counts, rows);
    let lent = steps.len() / STEP_WIDTH;
    let reply = derived(directory, lent, tag, &bytes[..end]);
    replied(steps, reply)
}

// 0A.
#[unsafe(no_mangle)]
pub extern "C" fn fluzzam_settle(
    counts: &[usize],
    rows: &[u8],
    positions: &mut [i64],
    cash: &mut [i64],
    bytes: &[u8],
    steps: &mut [u8],
) -> u64
    ensures { Settles 10 counts.now rows.now positions.old cash.old bytes.now
        steps.old result positions.new cash.new steps.new }
{
    settle(counts, rows, positions, cash, 10, bytes, steps)
}

// 0C.
#[unsafe(no_mangle)]
pub extern "C" fn fluzzam_settle_sided(
    counts: &[usize],
    rows: &[u8],
    positions: &mut [i64],
    cash: &mut [i64],
    bytes: &[u8],
    steps: &mut [u8],
) -> u64
    ensures { Settles 12 counts.now rows.now positions.old cash.old bytes.now
        steps.old result positions.new cash.new steps.new }
{
    settle(counts, rows, positions, cash, 12, bytes, steps)
}

// 0B.
#[unsafe(no_mangle)]
pub extern "C" fn fluzzam_derive(
    counts: &[usize],
    rows: &[u8],
    bytes: &[u8],
    steps: &mut [u8],
) -> u64
    ensures { Derives 11 counts.now rows.now bytes.now steps.old result steps.new }
{
    derive(counts, rows, 11, bytes, steps)
}

// 0D.
#[unsafe(no_mangle)]
pub extern "C" fn fluzzam_derive_sided(
    counts: &[usize],
    rows: &[u8],
    bytes: &[u8],
    steps: &mut [u8],
) -> u64
    ensures { Derives 13 counts.now rows.now bytes.now steps.old result steps.new }
{
    derive(counts, rows, 13, bytes, steps)
}

// ---- the totals and the program

// The total of a security: 1024 with the sum in `sum`, or the refusal.
#[unsafe(no_mangle)]
pub extern "C" fn fluzzam_security_total(
    counts: &[usize],
    rows: &[u8],
    positions: &[i64],
    security: u8,
    sum: &mut [i64],
) -> u64
    ensures { TotalsUnits counts.now rows.now positions.now security sum.old result sum.new }
{
    if counts.len() != COUNTS {
        return MISFIT;
    }
    if rows.len() != ROWS {
        return MISFIT;
    }
    if sum.len() == 0 {
        return MISFIT;
    }
    let directory = read_directory(counts, rows);
    match desk::security_total(directory, positions, security) {
        Ok(total) => {
            sum[0] = total.0;
            SUM
        }
        Err(refusal) => refused(refusal),
    }
}

// The total of cash, likewise.
#[unsafe(no_mangle)]
pub extern "C" fn fluzzam_cash_total(cash: &[i64], sum: &mut [i64]) -> u64
    ensures { TotalsCents cash.now sum.old result sum.new }
{
    if sum.len() == 0 {
        return MISFIT;
    }
    match desk::cash_total(cash) {
        Ok(total) => {
            sum[0] = total.0;
            SUM
        }
        Err(refusal) => refused(refusal),
    }
}

// The program: the whole text of an input to the front of `output`, whose other bytes stay, and its length; 0 where `output` has not room for every text.
#[unsafe(no_mangle)]
pub extern "C" fn fluzzam_run(input: &[u8], output: &mut [u8]) -> usize
    ensures { Printed (transcript input.now) output.old output.new result }
{
    stream::run(input, output)
}

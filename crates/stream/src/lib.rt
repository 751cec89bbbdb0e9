// A whole command stream into its whole text, as document 01's "Commands and program" has it. A stream's store starts empty and is changed by calls
// alone, so that its directory is sound, and no number of it is beyond ±10^15. Of the directory its index and its identifiers are kept.
#![tactic(auto)]

ghost use Rattle.rules.specs.Stream.{transcript};
ghost use Rattle.rules.specs.Stream.{Printed};

use commands::Held;
use ending::put_ending;
use text::pieces::put_word;
use turns::take_turn;
use words::Tables;

pub mod commands; // commands.rt: one command's operands decoded, and its call made
mod bytes; // bytes.rt: a few bytes, where there is room
mod words; // words.rt: the tables of words and sizes, and numbers by them
mod lines; // lines.rt: a command's lines
pub mod turns; // turns.rt: the command at a place, and its lines

// "above 65,536 bytes it prints `too long` only"
pub const INPUT: usize = 65_536;

// Bytes that hold any transcript: at most 6 for a byte of input, a stop and the end (proofs/Going).
pub const ROOM: usize = 400_000;

// Writes the transcript of the input to the front of `output`, whose other bytes stay, and answers its length. An output of less than ROOM bytes
// is left as it is, and the answer is 0.
pub fn run(input: &[u8], output: &mut [u8]) -> usize
    ensures { Printed (transcript input.now) output.old output.new result }
{
    if output.len() < ROOM {
        return 0;
    }
    if INPUT < input.len() {
        return put_word(output, 0, b"too long\n");
    }
    let mut held = Held::nothing();
    let tables = Tables::new();
    let mut at: usize = 0;
    let mut number: u32 = 0;
    let mut end: usize = 0;
    // A `while`: where the next command stands comes from the turn, not by counting.
    while at < input.len() {
        number += 1;
        let turn = take_turn(input, at, number, &mut held, output, end, &tables);
        at = turn.at;
        end = turn.end;
    }
    put_ending(output, end, &held.kept, &held.positions, &held.cash)
}

// One command after another: what stands at a place, its lines, and where the next one stands.
ghost use Rattle.std.specs.Prelude.{◌≡◌, [], ◌+◌, ◌≤◌, ◌<◌, length};
ghost use Rattle.rules.specs.declared.Answer.TheVariants.{Refused};
ghost use Rattle.rules.specs.Numbers.{number as number_of};
ghost use Rattle.rules.specs.Calls.{Store};
ghost use Rattle.rules.specs.Stream.{said};
ghost use Rattle.text.specs.Appended.{Appended};
ghost use Rattle.stream.specs.Obeyed.{Holds};
ghost use Rattle.stream.specs.Turns.{told, Takes};

use crate::commands::Held;
use crate::lines::{put_line_by, put_steps};
use crate::words::Tables;
use chain::step_list::count_of;
use rules::{Answer, Refusal};
use text::pieces::put_word;
use wire::commands::Next;
use wire::reader::next_in;

// After a command: the place of the next command, and where the text ends.
#[derive(Clone, Copy)]
pub struct Turn {
    pub at: usize,
    pub end: usize,
}

// "1 and 2 stop the reading": it goes on at the input's end.
fn stop(
    input: &[u8],
    number: u32,
    refusal: Refusal,
    out: &mut [u8],
    end: usize,
    tables: &Tables,
) -> Turn
    requires { (number < 1_000_000) × (end + 20 ≤ length out.old) }
    ensures { Appended out.old end out.new result.end (said number (Refused (number_of refusal)) [])
        × (result.at ≡ length input.now) }
{
    let told = put_line_by(out, end, number, Answer::Refused(u8::from(refusal)), tables);
    Turn {
        at: input.len(),
        end: told,
    }
}

// The command at the place `at`, which is the one of this number.
pub(crate) fn take_turn(
    input: &[u8],
    at: usize,
    number: u32,
    held: &mut Held,
    out: &mut [u8],
    end: usize,
    tables: &Tables,
) -> Turn
    requires { (number < 1_000_000) × (end + 400 ≤ length out.old) }
    ensures { (st : Store)
        → Holds held.old st
        → Takes (told input.now number at st) out.old end out.new result held.new }
{
    match next_in(input, at) {
        Next::End => Turn {
            at,
            end: put_word(out, end, b""),
        },
        Next::Unknown => stop(input, number, Refusal::UnknownByte, out, end, tables),
        Next::Cut => stop(input, number, Refusal::CutShort, out, end, tables),
        Next::Command {
            command,
            start,
            end: after,
        } => {
            let answer = held.obey(command, &input[start..after]);
            let told = put_line_by(out, end, number, answer, tables);
            let last = put_steps(out, told, count_of(answer), &held.steps, tables);
            Turn {
                at: after,
                end: last,
            }
        }
    }
}

// A command's lines, written from the tables of words and sizes. There is room for all of them: that is known once for the whole command.
ghost use Rattle.std.specs.Prelude.{◌≡◌, [], ◌∷◌, ◌++◌, ◌+◌, ◌*◌, ◌≤◌, ◌<◌, length};
ghost use Rattle.rules.specs.Stream.{step_line, step_lines, answer_text, said};
ghost use Rattle.chain.specs.StepList.{steps_in};
ghost use Rattle.text.specs.Appended.{Appended};

use crate::bytes::put_bytes;
use crate::words::{THOUSAND, Tables};
use chain::step_list::step_at;
use rules::{Answer, STEPS, Step};
use text::lines::put_step;

// An answer and the line's end.
fn put_answer_by(out: &mut [u8], at: usize, answer: Answer, tables: &Tables) -> usize
    requires { at + 11 ≤ length out.old }
    ensures { Appended out.old at out.new result (answer_text answer ++ (10 ∷ [])) }
{
    match answer {
        Answer::Accepted => put_bytes(out, at, b"ok\n"),
        Answer::Booked(k) => {
            let a = put_bytes(out, at, b"booked ");
            tables.put_last(out, a, k)
        }
        Answer::Chained(k) => {
            let a = put_bytes(out, at, b"chain ");
            tables.put_last(out, a, k)
        }
        Answer::Refused(n) => {
            let a = put_bytes(out, at, b"no ");
            tables.put_last(out, a, n as usize)
        }
    }
}

// The line of command `number`, without steps.
pub(crate) fn put_line_by(
    out: &mut [u8],
    at: usize,
    number: u32,
    answer: Answer,
    tables: &Tables,
) -> usize
    requires { (number < 1_000_000) × (at + 20 ≤ length out.old) }
    ensures { Appended out.old at out.new result (said number answer []) }
{
    let end = tables.put_number(out, at, number);
    put_answer_by(out, end, answer, tables)
}

// "a line per step: `-`, CSD, debited, credited", where there is room: written from its last number to its first byte.
fn put_step_by(out: &mut [u8], at: usize, step: Step, tables: &Tables) -> usize
    requires { at + 20 ≤ length out.old }
    ensures { Appended out.old at out.new result (step_line step) × (result ≤ at + 20) }
{
    let csd = step.csd as usize;
    let debited = step.debited as usize;
    let credited = step.credited as usize;
    if THOUSAND <= debited || THOUSAND <= credited {
        // Put together here alone: no other line needs the step in memory.
        let wide = Step {
            csd: step.csd,
            debited: step.debited,
            credited: step.credited,
        };
        return put_step(out, at, wide);
    }
    let a = at + 2 + tables.size(csd);
    let b = a + tables.size(debited);
    let c = b + tables.size(credited);
    tables.ended.put_before(out, c, credited);
    tables.spaced.put_before(out, b, debited);
    tables.spaced.put_before(out, a, csd);
    put_bytes(out, at, b"- ");
    c
}

// The lines of the first k steps, where there is room.
fn put_short_steps(out: &mut [u8], at: usize, k: usize, steps: &[u16], tables: &Tables) -> usize
    requires { at + 20 * k ≤ length out.old }
    ensures { Appended out.old at out.new result (step_lines (steps_in steps.now k)) }
{
    let mut end = at;
    for i in 0..k {
        end = put_step_by(out, end, step_at(steps, i), tables);
    }
    end
}

// The same wherever the text ends.
fn put_any_steps(out: &mut [u8], at: usize, k: usize, steps: &[u16]) -> usize
    requires { at ≤ length out.old }
    ensures { Appended out.old at out.new result (step_lines (steps_in steps.now k)) }
{
    let mut end = at;
    for i in 0..k {
        end = put_step(out, end, step_at(steps, i));
    }
    end
}

// The lines of the first k steps: as many as a chain may have, or more, for which there may be no room.
pub(crate) fn put_steps(
    out: &mut [u8],
    at: usize,
    k: usize,
    steps: &[u16],
    tables: &Tables,
) -> usize
    requires { at + 320 ≤ length out.old }
    ensures { Appended out.old at out.new result (step_lines (steps_in steps.now k)) }
{
    if STEPS < k {
        return put_any_steps(out, at, k, steps);
    }
    put_short_steps(out, at, k, steps, tables)
}

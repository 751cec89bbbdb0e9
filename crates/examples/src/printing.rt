// Answers and steps on standard output. What only prints has nothing to promise; it fails where the output does.
ghost use Rattle.std.specs.Prelude.{◌≡◌, IfOk};
ghost use Rattle.rules.specs.Calls.{count_of};

use rules::{Answer, Step};
use std::io;

// A step in the program's words.
pub fn put_step(rt: &impl Print, step: Step) -> io::Result<()> {
    println!(rt; "- {} {} {}", step.csd, step.debited, step.credited)
}

// The answer in the program's words, without an end of the line; K.
pub fn put_answer(rt: &impl Print, answer: Answer) -> io::Result<usize>
    ensures { IfOk result (λ k. k ≡ count_of answer) }
{
    print!(rt; "{answer}")?;
    match answer {
        Answer::Booked(count) | Answer::Chained(count) => Ok(count),
        Answer::Accepted | Answer::Refused(_) => Ok(0),
    }
}

// What a call answers, and how it is printed.
ghost use Rattle.std.specs.Prelude.{◌≡◌, Some};
ghost use Rattle.rules.specs.Numbers.{accepted_by, booked_by, chained_by};
ghost use Rattle.rules.specs.Display.{displayed};

use crate::refusal::Refusal;
use std::fmt;

// Booked and Chained carry the number of steps, Refused the number of the documents.
#[derive(Clone, Copy, Debug, PartialEq, Eq)]
pub enum Answer {
    Accepted,
    Booked(usize),
    Chained(usize),
    Refused(u8),
}

impl Answer {
    // Booked by this many steps, or refused.
    pub fn booked(settled: Result<usize, Refusal>) -> Answer
        ensures { result ≡ booked_by settled }
    {
        match settled {
            Ok(steps) => Answer::Booked(steps),
            Err(refusal) => Answer::Refused(u8::from(refusal)),
        }
    }

    // A chain of this many steps, or refused.
    pub fn chained(derived: Result<usize, Refusal>) -> Answer
        ensures { result ≡ chained_by derived }
    {
        match derived {
            Ok(steps) => Answer::Chained(steps),
            Err(refusal) => Answer::Refused(u8::from(refusal)),
        }
    }
}

// Accepted, or refused.
impl From<Result<(), Refusal>> for Answer {
    ghost from_gives = { λ outcome answer. answer ≡ accepted_by outcome };

    fn from(outcome: Result<(), Refusal>) -> Answer {
        match outcome {
            Ok(()) => Answer::Accepted,
            Err(refusal) => Answer::Refused(u8::from(refusal)),
        }
    }
}

// The program's words.
impl fmt::Display for Answer {
    ghost output = { λ answer. Some (displayed answer) };

    fn fmt<W: fmt::Write>(&self, f: &mut fmt::Formatter<W>) -> fmt::Result {
        match self {
            Answer::Accepted => write!(f, "ok"),
            Answer::Booked(steps) => write!(f, "booked {steps}"),
            Answer::Chained(steps) => write!(f, "chain {steps}"),
            Answer::Refused(number) => write!(f, "no {number}"),
        }
    }
}

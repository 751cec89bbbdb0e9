// The steps of a chain as numbers in a lent list: three for each step, its CSD, the account debited and the account credited.
ghost use Rattle.std.specs.Prelude.{◌≡◌, ◌<◌, length};
ghost use Rattle.rules.specs.Chain.{step_limit};
ghost use Rattle.rules.specs.Calls.{count_of};
ghost use Rattle.chain.specs.StepList.{step_numbers, step_at, with_step};

use rules::{Answer, STEPS, Step};

// How many numbers hold the steps of any chain.
pub const STEP_NUMBERS: usize = 3 * STEPS;

// 0 in each place.
pub(crate) const BLANK: Step = Step {
    csd: 0,
    debited: 0,
    credited: 0,
};

// Step i of the list; where the list has another length, or i is beyond the longest chain, 0 in each place.
#[tactic(auto, unfolding(crate::specs::StepList::step_at))]
pub fn step_at(steps: &[u16], i: usize) -> Step
    ensures { result ≡ step_at steps.now i }
{
    if steps.len() == STEP_NUMBERS && i < STEPS {
        let at = 3 * i;
        return Step {
            csd: (steps[at] % 256) as u8,
            debited: steps[at + 1],
            credited: steps[at + 2],
        };
    }
    BLANK
}

// The step put behind the first n steps of a list that can hold it.
#[tactic(auto, unfolding(crate::specs::StepList::with_step))]
pub(crate) fn put_step(steps: &mut [u16], n: usize, step: Step)
    requires { (length steps.old ≡ step_numbers) × (n < step_limit) }
    ensures puts { steps.new ≡ with_step steps.old n step }
    ensures byte { step.csd < 256 }
{
    let at = 3 * n;
    steps[at] = step.csd as u16;
    steps[at + 1] = step.debited;
    steps[at + 2] = step.credited;
}

// How many steps an answer counts: K of a booked or derived chain.
pub fn count_of(answer: Answer) -> usize
    ensures { result ≡ count_of answer }
{
    match answer {
        Answer::Booked(k) | Answer::Chained(k) => k,
        Answer::Accepted | Answer::Refused(_) => 0,
    }
}

// The steps of a chain along a route: each side is climbed from its account into steps of its own, and only when both have all their pairs are the
// delivering side, what stands between the sides, and the receiving side turned round put into the lent list.
ghost use Rattle.std.specs.Prelude.{◌≡◌, ◌+◌, ◌≤◌, ◌<◌, length};
ghost use Rattle.rules.specs.Walks.{side_limit};
ghost use Rattle.rules.specs.Chain.{flip, top_steps, turned, along, step_limit};
ghost use Rattle.rules.specs.Chain.Route.{sides};
ghost use Rattle.walks.specs.Sides.{named};
ghost use Rattle.walks.specs.Walks.{seen};
ghost use Rattle.chain.specs.StepList.{step_numbers};
ghost use Rattle.chain.specs.Steps.{Adds, FoundIn};

use crate::climbed::Climbed;
use crate::step_list::{BLANK, put_step};
use index::links::issuance_of;
use rules::{Join, Refusal, SIDE, Step};
use walks::routes::Route;
use walks::walks::DayLinks;

// The steps of the delivering side, put at the front of the list.
fn put_side(steps: &mut [u16], side: &[Step])
    requires { (length steps.old ≡ step_numbers) × (length side.now < side_limit) }
    ensures { Adds steps.old 0 side.now steps.new (length side.now) }
{
    for (i, step) in side.iter().enumerate() {
        put_step(steps, i, *step);
    }
}

// What stands between the sides, put behind the steps of the delivering one. The answer is how many steps there are then.
fn add_top(links: &DayLinks, join: Join, up: Climbed, down: Climbed, steps: &mut [u16]) -> usize
    requires { length steps.old ≡ step_numbers }
    ensures adds { Adds steps.old up.count
        (top_steps (seen links.now) links.now.security join up.csd down.csd up.account down.account) steps.new result }
    ensures upper_bound { result ≤ side_limit + 1 }
    ensures steps_len { length steps.new ≡ step_numbers }
{
    let count = up.count;
    match join {
        Join::Meeting => {
            let step = Step {
                csd: up.csd,
                debited: up.account,
                credited: down.account,
            };
            put_step(steps, count, step);
            count + 1
        }
        Join::Issuers => {
            let taken = Step {
                csd: up.csd,
                debited: up.account,
                credited: issuance_of(links.index, links.security, up.csd, links.day),
            };
            let given = Step {
                csd: down.csd,
                debited: issuance_of(links.index, links.security, down.csd, links.day),
                credited: down.account,
            };
            put_step(steps, count, taken);
            put_step(steps, count + 1, given);
            count + 2
        }
        Join::Externals => count,
    }
}

// What is debited for one side is credited for the other.
fn flipped(step: Step) -> Step
    ensures { result ≡ flip step }
{
    Step {
        csd: step.csd,
        debited: step.credited,
        credited: step.debited,
    }
}

// The steps of the receiving side turned round, from its top down, put behind the first `count` steps.
fn add_turned(steps: &mut [u16], count: usize, side: &[Step]) -> usize
    requires { (length steps.old ≡ step_numbers) × (count ≤ side_limit + 1) × (length side.now < side_limit) }
    ensures adds { Adds steps.old count (turned side.now) steps.new result }
    ensures upper_bound { result ≤ step_limit }
{
    let mut n = count;
    for step in side.iter().rev() {
        put_step(steps, n, flipped(*step));
        n += 1;
    }
    n
}

// The steps along a route from the delivering account to the receiving one, or 18.
pub(crate) fn steps_along(
    links: &DayLinks,
    route: &Route,
    delivering: u16,
    receiving: u16,
    steps: &mut [u16],
) -> Result<usize, Refusal>
    requires { length steps.old ≡ step_numbers }
    ensures { FoundIn steps.old steps.new
        (along (seen links.now) links.now.security delivering receiving
        (sides route.now.join (named route.now.delivering) (named route.now.receiving))) result }
{
    let mut upwards = [BLANK; SIDE];
    let mut downwards = [BLANK; SIDE];
    let up = Climbed::climb(links.index, &route.delivering, delivering, &mut upwards)?;
    let down = Climbed::climb(links.index, &route.receiving, receiving, &mut downwards)?;
    put_side(steps, &upwards[..up.count]);
    let top = add_top(links, route.join, up, down, steps);
    let count = add_turned(steps, top, &downwards[..down.count]);
    Ok(count)
}

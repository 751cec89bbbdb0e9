// The chain between two accounts, and the derivation for two halves.
ghost use Rattle.rules.specs.Numbers.{chained_by};
ghost use Rattle.index.specs.Asked.{asked_on};
ghost use Rattle.chain.specs.Derivation.{Finds, Derives};

use crate::step_list::{STEP_NUMBERS, put_step};
use crate::steps::steps_along;
use halves::{InOrder, halves_refusal};
use index::lookups::home_of;
use index::places::INDEX;
use rules::{Refusal, Step};
use walks::routes::route_of;
use walks::walks::DayLinks;

// The steps on the day from the delivering account to the receiving one: how many there are. 3 for a list of another length, or 14 to 18, and the list is then
// as it was.
pub fn chain_of(
    index: &[u16; INDEX],
    security: u8,
    delivering: u16,
    receiving: u16,
    steps: &mut [u16],
    day: u16,
) -> Result<usize, Refusal>
    ensures { Finds steps.old steps.new (asked_on index.now day) security delivering receiving result }
{
    if steps.len() != STEP_NUMBERS {
        return Err(Refusal::LentList);
    }
    let from = home_of(index, delivering);
    let to = home_of(index, receiving);
    if from == to {
        let step = Step {
            csd: from,
            debited: delivering,
            credited: receiving,
        };
        put_step(steps, 0, step);
        return Ok(1);
    }
    let route = route_of(index, security, from, to, day)?;
    let links = DayLinks {
        index,
        security,
        day,
    };
    steps_along(&links, &route, delivering, receiving, steps)
}

// 3, then 6, 7, 10, 23, 12, 13, then the chain on the day: how many steps it has. What is asked of the sides comes last.
pub fn derive(
    index: &[u16; INDEX],
    steps: &mut [u16],
    halves: InOrder,
    day: u16,
) -> Result<usize, Refusal>
    ensures { Derives steps.old steps.new (asked_on index.now day)
        halves.delivering halves.receiving halves.unknown halves.same (chained_by result) }
{
    if steps.len() != STEP_NUMBERS {
        return Err(Refusal::LentList);
    }
    halves_refusal(index, halves)?;
    let half = halves.delivering;
    let receiving = halves.receiving.account;
    let count = chain_of(index, half.security, half.account, receiving, steps, day)?;
    Ok(count)
}

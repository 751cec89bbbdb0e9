// One side of a chain, climbed from its account.
ghost use Rattle.std.specs.Prelude.{◌<◌};
ghost use Rattle.rules.specs.Walks.{side_limit};

use index::lookups::pair_of;
use index::places::INDEX;
use rules::{Refusal, SIDE, Step};
use walks::sides::Side;

// A side climbed: how many steps it has, its last CSD, and the account that stands for it there.
#[derive(Clone, Copy)]
pub struct Climbed {
    pub count: usize,
    pub csd: u8,
    pub account: u16,
    pub ghost few: { count < side_limit },
}

impl Climbed {
    ghost use Rattle.std.specs.Prelude.{◌≡◌, IfOk, IfErr};
    ghost use Rattle.rules.specs.Chain.{climb, last_of};
    ghost use Rattle.index.specs.Asked.{asked};
    ghost use Rattle.walks.specs.Sides.{named};
    ghost use Rattle.chain.specs.Steps.{climb_in};

    // The side climbed from its account, its steps put at the front of those lent, since by value they would be copied; 18 where a pair is not entered.
    pub(crate) fn climb(
        index: &[u16; INDEX],
        side: &Side,
        account: u16,
        steps: &mut [Step; SIDE],
    ) -> Result<Climbed, Refusal>
        ensures climbed { climb_in result steps.new ≡ climb (asked index.now) (named side.now) account }
        ensures refusal { IfErr result (λ e. e ≡ Refusal.NoPair) }
        ensures top { IfOk result (λ x. x.csd ≡ last_of (named side.now)) }
    {
        let mut count: usize = 0;
        let mut at = account;
        for two in side.named().windows(2) {
            let csd = two[0];
            let Some(pair) = pair_of(index, csd, two[1], at) else {
                return Err(Refusal::NoPair);
            };
            steps[count] = Step {
                csd,
                debited: at,
                credited: pair.mirror,
            };
            at = pair.omnibus;
            count += 1;
        }
        Ok(Climbed {
            count,
            csd: side.last(),
            account: at,
        })
    }
}

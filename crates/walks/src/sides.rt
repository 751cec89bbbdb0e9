// The CSDs that a side names, upwards from its participant's, and questions to them.
ghost use Rattle.std.specs.Prelude.{◌≡◌, ◌≤◌, [], ◌∷◌, ◌-◌, length, take};
ghost use Rattle.rules.specs.Walks.{side_limit};
ghost use Rattle.rules.specs.Chain.{last_of};
ghost use Rattle.walks.specs.Sides.{named};

use rules::{NO_CSD, SIDE};

// The first `count` of the CSDs are named.
#[derive(Clone, Copy)]
pub struct Side {
    pub count: usize,
    pub csds: [u8; SIDE],
}

impl Side {
    // A side of one CSD.
    pub fn alone(csd: u8) -> Side
        ensures { named result ≡ csd ∷ [] }
    {
        Side {
            count: 1,
            csds: [csd; SIDE],
        }
    }

    // The CSDs that it names, eight at most.
    pub fn named(&self) -> &[u8]
        ensures named { result.now ≡ named self.now }
        ensures few { length result.now ≤ side_limit }
    {
        &self.csds[..self.count.min(SIDE)]
    }

    // The side without its last n CSDs.
    pub fn without_last(&self, n: usize) -> Side
        ensures { named result ≡ take (length (named self.now) - n) (named self.now) }
    {
        Side {
            count: self.count.min(SIDE).saturating_sub(n),
            csds: self.csds,
        }
    }

    // The last CSD, hex FF where it names none.
    pub fn last(&self) -> u8
        ensures { result ≡ last_of (named self.now) }
    {
        match self.named().last() {
            Some(csd) => *csd,
            None => NO_CSD,
        }
    }
}

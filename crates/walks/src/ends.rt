// How walks end, and the two ends judged together.
ghost use Rattle.std.specs.Prelude.{◌≡◌};
ghost use Rattle.rules.specs.Walks.{arrived, reached};
ghost use Rattle.rules.specs.Chain.{judged};
ghost use Rattle.walks.specs.Ends.{verdict_of};

use rules::{Join, Refusal, WalkEnd};

// Whether a walk ended inside or outside.
pub fn has_arrived(end: WalkEnd) -> bool
    ensures { result ≡ arrived end }
{
    matches!(end, WalkEnd::Inside(_) | WalkEnd::Outside(_))
}

// Whether a directed walk ended at its target.
pub fn has_reached(target: u8, end: WalkEnd) -> bool
    ensures { result ≡ reached target end }
{
    matches!(end, WalkEnd::Inside(csd) if csd == target)
}

// How the two sides join, or the refusal, by the ends of the delivering and the receiving default walk.
pub fn judge(delivering: WalkEnd, receiving: WalkEnd) -> Result<Join, Refusal>
    ensures { verdict_of result ≡ judged delivering receiving }
{
    match (delivering, receiving) {
        (WalkEnd::NoLink, _) | (_, WalkEnd::NoLink) => Err(Refusal::NoLink),
        (WalkEnd::TooLong, _) | (_, WalkEnd::TooLong) => Err(Refusal::SideTooLong),
        (WalkEnd::Inside(_), WalkEnd::Inside(_)) => Ok(Join::Issuers),
        (WalkEnd::Outside(_), WalkEnd::Outside(_)) => Ok(Join::Externals),
        (WalkEnd::Inside(_), WalkEnd::Outside(_)) => Err(Refusal::ReceiverOutside),
        (WalkEnd::Outside(_), WalkEnd::Inside(_)) => Err(Refusal::DelivererOutside),
    }
}

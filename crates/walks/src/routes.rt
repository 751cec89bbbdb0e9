// The CSDs of a chain: how its two sides join, and the CSDs that each names.
ghost use Rattle.std.specs.Prelude.{◌≡◌, true};
ghost use Rattle.rules.specs.Tests.{any};
ghost use Rattle.rules.specs.Walks.{default_walk, directed_walk};
ghost use Rattle.rules.specs.Chain.{judged, joined_by, route};
ghost use Rattle.rules.specs.Chain.Route.{sides};
ghost use Rattle.index.specs.Asked.{is_target, asked_on};
ghost use Rattle.walks.specs.Sides.{named};
ghost use Rattle.walks.specs.Walks.{seen, walk_of};
ghost use Rattle.walks.specs.Routes.{CommonEnd, Meets, turns, Unturned, route_of};

use crate::ends::{has_arrived, has_reached, judge};
use crate::sides::Side;
use crate::walks::{DayLinks, Walk};
use index::links::{has_link_to, is_target};
use index::places::INDEX;
use rules::{Join, Refusal, WalkEnd};

// How the sides join and the CSDs that they name.
#[derive(Clone, Copy)]
pub struct Route {
    pub join: Join,
    pub delivering: Side,
    pub receiving: Side,
}

impl Route {
    // Two sides that join so.
    pub fn joined(join: Join, delivering: Side, receiving: Side) -> Route
        ensures { route_of (Ok result) ≡ sides join (named delivering) (named receiving) }
    {
        Route {
            join,
            delivering,
            receiving,
        }
    }
}

// Two walks joined as their ends allow, or the refusal.
pub fn by_ends(delivering: &Walk, receiving: &Walk) -> Result<Route, Refusal>
    ensures { route_of result ≡ joined_by (judged delivering.now.end receiving.now.end) (named delivering.now.side) (named receiving.now.side) }
{
    let join = judge(delivering.end, receiving.end)?;
    Ok(Route::joined(join, delivering.side, receiving.side))
}

// How many CSDs two sides have in common at their ends.
fn common_end(delivering: &Side, receiving: &Side) -> usize
    ensures { CommonEnd (named delivering.now) (named receiving.now) result }
{
    let up = delivering.named();
    let down = receiving.named();
    let most = up.len().min(down.len());
    for k in 0..most {
        if up[up.len() - k - 1] != down[down.len() - k - 1] {
            return k;
        }
    }
    most
}

// How many CSDs two default walks share, the first of them in T2S, if both end inside or outside; else 0. Walks that share a CSD go the same way from there
// on, so that they share the CSDs at their ends, of which they have `common` in common.
fn shared_csds(delivering: &Walk, receiving: &Walk, common: usize) -> usize
    requires { CommonEnd (named delivering.now.side) (named receiving.now.side) common }
    ensures { Meets delivering.now receiving.now result }
{
    if !has_arrived(receiving.end) {
        return 0;
    }
    match delivering.end {
        WalkEnd::Inside(_) => common,
        WalkEnd::Outside(_) => {
            if common == 1 {
                return 0;
            }
            common
        }
        WalkEnd::NoLink | WalkEnd::TooLong => 0,
    }
}

impl<'a> DayLinks<'a> {
    // Whether a directed walk leaves a default one at the CSD: it is the target, or has a link to it; `linked` says whether any link for the security leads
    // there.
    #[tactic(auto, unfolding(index::specs::Asked::asked_by))]
    fn turns_at(&self, target: u8, linked: bool, csd: u8) -> bool
        requires { linked ≡ is_target self.now.index.now self.now.security target }
        ensures { result ≡ turns (seen self.now) self.now.security target csd }
    {
        if csd == target {
            return true;
        }
        if !linked {
            return false;
        }
        has_link_to(self.index, self.security, csd, target, self.day)
    }

    // Whether it does at one of the CSDs of a side.
    fn turns_along(&self, target: u8, side: &Side) -> bool
        ensures { result ≡ any (turns (seen self.now) self.now.security target) (named side.now) }
    {
        let linked = is_target(self.index, self.security, target);
        side.named()
            .iter()
            .any(|csd| self.turns_at(target, linked, *csd))
    }

    // The directed walk from a CSD whose default walk is known: the same, unless it turns at one of its CSDs.
    fn directed_from(&self, target: u8, csd: u8, walked: &Walk) -> Walk
        requires { walk_of walked.now ≡ default_walk (seen self.now) self.now.security csd }
        ensures { walk_of result ≡ directed_walk (seen self.now) self.now.security target csd }
    {
        if self.turns_along(target, &walked.side) {
            return self.directed_walk(target, csd);
        }
        *walked
    }

    // Whether it is known at once that no directed walk leaves its default walk: both arrive, with no CSD in common, and no link for the security leads to
    // either CSD. Default walks with no CSD in common at their ends have none.
    fn none_turns(
        &self,
        from: u8,
        to: u8,
        delivering: &Walk,
        receiving: &Walk,
        common: usize,
    ) -> bool
        requires { (walk_of delivering.now ≡ default_walk (seen self.now) self.now.security from)
            × (walk_of receiving.now ≡ default_walk (seen self.now) self.now.security to)
            × CommonEnd (named delivering.now.side) (named receiving.now.side) common }
        ensures { result ≡ true → Unturned (seen self.now) self.now.security from to delivering.now receiving.now }
    {
        if common != 0 {
            return false;
        }
        if !has_arrived(delivering.end) {
            return false;
        }
        if !has_arrived(receiving.end) {
            return false;
        }
        if is_target(self.index, self.security, to) {
            return false;
        }
        !is_target(self.index, self.security, from)
    }
}

// The four cases of document 01 on the day, from the delivering CSD to the receiving one.
pub fn route_of(
    index: &[u16; INDEX],
    security: u8,
    from: u8,
    to: u8,
    day: u16,
) -> Result<Route, Refusal>
    ensures { route_of result ≡ route (asked_on index.now day) security from to }
{
    if from == to {
        return Ok(Route::joined(Join::Meeting, Side::alone(from), Side::alone(to)));
    }
    let links = DayLinks {
        index,
        security,
        day,
    };
    let delivering = links.default_walk(from);
    let receiving = links.default_walk(to);
    let common = common_end(&delivering.side, &receiving.side);
    let shared = shared_csds(&delivering, &receiving, common);
    if 0 < shared {
        return Ok(Route::joined(
            Join::Meeting,
            delivering.side.without_last(shared - 1),
            receiving.side.without_last(shared - 1),
        ));
    }
    if links.none_turns(from, to, &delivering, &receiving, common) {
        return by_ends(&delivering, &receiving);
    }
    let towards = links.directed_from(to, from, &delivering);
    if has_reached(to, towards.end) {
        return Ok(Route::joined(Join::Meeting, towards.side, Side::alone(to)));
    }
    let back = links.directed_from(from, to, &receiving);
    if has_reached(from, back.end) {
        return Ok(Route::joined(Join::Meeting, Side::alone(from), back.side));
    }
    by_ends(&delivering, &receiving)
}

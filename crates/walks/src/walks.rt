// Walks from CSD to CSD: one walk, which calls itself with the CSDs still allowed, led by a default hop or a directed hop.
ghost use Rattle.std.specs.Prelude.{◌≡◌, ◌-◌, ◌≤◌};
ghost use Rattle.rules.specs.Walks.{side_limit, default_hop, directed_hop, walk, default_walk, directed_walk};
ghost use Rattle.walks.specs.Sides.{named};
ghost use Rattle.walks.specs.Walks.{seen, hop_of, walk_of, WalksOn};

use crate::sides::Side;
use index::links::{Leading, has_link_to, leading_at};
use index::lookups::is_external;
use index::places::INDEX;
use rules::{Hop, SIDE, WalkEnd};

// How a walk ended, and the CSDs that it named.
#[derive(Clone, Copy)]
pub struct Walk {
    pub end: WalkEnd,
    pub side: Side,
}

// The links for a security on a day, as an index has them.
#[derive(Clone, Copy)]
pub struct DayLinks<'a> {
    pub index: &'a [u16; INDEX],
    pub security: u8,
    pub day: u16,
}

impl<'a> DayLinks<'a> {
    fn default_hop(&self, csd: u8) -> Hop
        ensures { result ≡ default_hop (seen self.now) self.now.security csd }
    {
        if is_external(self.index, csd) {
            return Hop::Ends(WalkEnd::Outside(csd));
        }
        match leading_at(self.index, self.security, csd, self.day) {
            Leading::Issuer => Hop::Ends(WalkEnd::Inside(csd)),
            Leading::To(technical) => Hop::On(technical),
            Leading::Nowhere => Hop::Ends(WalkEnd::NoLink),
        }
    }

    #[tactic(auto, unfolding(rules::specs::Walks::directed_hop, rules::specs::Walks::default_hop, index::specs::Asked::asked_by))]
    fn directed_hop(&self, target: u8, csd: u8) -> Hop
        ensures { result ≡ directed_hop (seen self.now) self.now.security target csd }
    {
        if csd == target {
            return Hop::Ends(WalkEnd::Inside(csd));
        }
        if has_link_to(self.index, self.security, csd, target, self.day) {
            if is_external(self.index, csd) {
                return Hop::Ends(WalkEnd::Outside(csd));
            }
            return Hop::On(target);
        }
        self.default_hop(csd)
    }

    // What a walk does at a CSD: one that has a target, or a default walk.
    fn hop_at(&self, target: Option<u8>, csd: u8) -> Hop
        ensures { result ≡ hop_of (seen self.now) self.now.security target csd }
    {
        match target {
            Some(target) => self.directed_hop(target, csd),
            None => self.default_hop(csd),
        }
    }

    // The walk from the CSD on, which may still name `left` CSDs, behind those that are walked.
    fn walk_from(&self, target: Option<u8>, csd: u8, left: usize, walked: &mut Walk)
        requires { (left ≤ side_limit) × (walked.old.side.count ≡ side_limit - left) }
        ensures { WalksOn (named walked.old.side) (walk (hop_of (seen self.now) self.now.security target) left csd) walked.new.end (named walked.new.side) }
    {
        if left == 0 {
            walked.end = WalkEnd::TooLong;
            return;
        }
        let side = &mut walked.side;
        side.csds[side.count] = csd;
        side.count += 1;
        match self.hop_at(target, csd) {
            Hop::Ends(end) => walked.end = end,
            Hop::On(next) => self.walk_from(target, next, left - 1, walked),
        }
    }

    // The whole walk from a CSD.
    fn whole_walk(&self, target: Option<u8>, csd: u8) -> Walk
        ensures { walk_of result ≡ walk (hop_of (seen self.now) self.now.security target) side_limit csd }
    {
        let mut walked = Walk {
            end: WalkEnd::TooLong,
            side: Side {
                count: 0,
                csds: [0; SIDE],
            },
        };
        self.walk_from(target, csd, SIDE, &mut walked);
        walked
    }

    pub fn default_walk(&self, csd: u8) -> Walk
        ensures { walk_of result ≡ default_walk (seen self.now) self.now.security csd }
    {
        self.whole_walk(None, csd)
    }

    pub fn directed_walk(&self, target: u8, csd: u8) -> Walk
        ensures { walk_of result ≡ directed_walk (seen self.now) self.now.security target csd }
    {
        self.whole_walk(Some(target), csd)
    }
}

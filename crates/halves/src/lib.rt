// Two halves of an instruction: put in order where they have their sides, and what refuses them before a chain is looked for.
#![tactic(auto)]

ghost use Rattle.std.specs.Prelude.{◌≡◌, true, false};
ghost use Rattle.rules.specs.Tests.{first_of};
ghost use Rattle.rules.specs.Numbers.{refused_by};
ghost use Rattle.rules.specs.Calls.{ordered, sided};
ghost use Rattle.rules.specs.Calls.{half_unknown, half_out_of_range, halves_differ, both_conditions};
ghost use Rattle.index.specs.Asked.{asked};
ghost use Rattle.halves.specs.Halves.{in_order, Faces, TermsAgree};

use index::lookups::{in_books, is_account, is_csd, is_kind, is_security};
use index::places::INDEX;
use rules::{DELIVERING, Half, LIMIT, PARTICIPANT, RECEIVING, Refusal, SidedHalf};

// Two halves in order, and what is asked of their sides: whether one is unknown, and whether both are the same.
#[derive(Clone, Copy)]
pub struct InOrder {
    pub delivering: Half,
    pub receiving: Half,
    pub unknown: bool,
    pub same: bool,
}

impl InOrder {
    // Two halves given delivering first: nothing is asked of their sides.
    pub fn delivering_first(delivering: Half, receiving: Half) -> InOrder
        ensures { result ≡ in_order (ordered delivering receiving) }
    {
        InOrder {
            delivering,
            receiving,
            unknown: false,
            same: false,
        }
    }
}

// Two halves with their sides are put in order here; everything behind it knows the half that delivers and the one that receives.
pub fn in_order(first: SidedHalf, second: SidedHalf) -> InOrder
    ensures { result ≡ in_order (sided first second) }
{
    let unknown = (RECEIVING < first.side) | (RECEIVING < second.side);
    let same = first.side == second.side;
    let (delivering, receiving) = if first.side == DELIVERING {
        (first.half, second.half)
    } else {
        (second.half, first.half)
    };
    InOrder {
        delivering,
        receiving,
        unknown,
        same,
    }
}

// ---- the refusals

// Whether the half's account, counterpart CSD or security names no row.
fn half_unknown(index: &[u16; INDEX], half: Half) -> bool
    ensures { result ≡ half_unknown (asked index.now) half }
{
    let account = is_account(index, half.account);
    let counterpart = is_csd(index, half.counterpart);
    let security = is_security(index, half.security);
    !account | (!counterpart | !security)
}

// Whether its quantity or amount is out of range.
fn half_out_of_range(half: Half) -> bool
    ensures { result ≡ half_out_of_range half }
{
    ((half.quantity == 0) | (LIMIT < half.quantity)) | (LIMIT < half.amount)
}

// Whether the half has a participant account, and for its counterpart a CSD that has the other account in its books.
fn faces(index: &[u16; INDEX], half: Half, other: u16) -> bool
    ensures { result ≡ true → Faces (asked index.now) half other }
{
    is_kind(index, half.account, PARTICIPANT)
        && in_books(index, other, half.counterpart)
        && is_csd(index, half.counterpart)
}

impl InOrder {
    // Whether security, quantity or amount differ, or a counterpart is not the other's CSD.
    fn differ(self, index: &[u16; INDEX]) -> bool
        ensures { result ≡ halves_differ (asked index.now) self.delivering self.receiving }
    {
        let delivering = self.delivering;
        let receiving = self.receiving;
        let to = in_books(index, receiving.account, delivering.counterpart);
        let from = in_books(index, delivering.account, receiving.counterpart);
        (delivering.security != receiving.security)
            | ((delivering.quantity != receiving.quantity)
                | ((delivering.amount != receiving.amount) | (!to | !from)))
    }

    // Whether both have one security, which is entered, one quantity and one amount, which are in range.
    fn terms_agree(self, index: &[u16; INDEX]) -> bool
        ensures { result ≡ true → TermsAgree (asked index.now) self.delivering self.receiving }
    {
        let delivering = self.delivering;
        let receiving = self.receiving;
        delivering.security == receiving.security
            && delivering.quantity == receiving.quantity
            && delivering.amount == receiving.amount
            && !half_out_of_range(delivering)
            && is_security(index, delivering.security)
    }

    // Whether the halves agree, so that nothing but their sides can refuse them: what both have is looked at once.
    #[tactic(auto, using(crate::proofs::Agreeing::agreed))]
    fn agree(self, index: &[u16; INDEX]) -> bool
        ensures { result ≡ true → first_of (both_conditions (asked index.now) self.delivering self.receiving false false) ≡ 0 }
    {
        let delivering = self.delivering;
        let receiving = self.receiving;
        faces(index, delivering, receiving.account)
            && faces(index, receiving, delivering.account)
            && self.terms_agree(index)
            && delivering.account != receiving.account
    }
}

// 6, 7, 10, 23, 12 and 13, each over both halves. What is asked of their sides comes last.
pub fn halves_refusal(index: &[u16; INDEX], halves: InOrder) -> Result<(), Refusal>
    ensures { refused_by result
        ≡ first_of (both_conditions (asked index.now) halves.delivering halves.receiving halves.unknown halves.same) }
{
    if halves.agree(index) & !(halves.unknown | halves.same) {
        return Ok(());
    }
    let delivering = halves.delivering;
    let receiving = halves.receiving;
    if half_unknown(index, delivering) | half_unknown(index, receiving) {
        return Err(Refusal::NoRow);
    }
    if half_out_of_range(delivering) | half_out_of_range(receiving) | halves.unknown {
        return Err(Refusal::OutOfRange);
    }
    let delivers = is_kind(index, delivering.account, PARTICIPANT);
    let receives = is_kind(index, receiving.account, PARTICIPANT);
    if !delivers | !receives {
        return Err(Refusal::WrongAccount);
    }
    if halves.same {
        return Err(Refusal::SameSide);
    }
    if halves.differ(index) {
        return Err(Refusal::HalvesDiffer);
    }
    if delivering.account == receiving.account {
        return Err(Refusal::SameAccount);
    }
    Ok(())
}

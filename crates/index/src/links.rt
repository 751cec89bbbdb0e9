// The links of a CSD for a security, which the index has as a list, newest first: the newest by security and CSD, the next older one with each link. No other
// link is read; whether any link for a security leads to a CSD stands at one place. Each question is answered for every list of numbers as specs/Asked says.
#![tactic(auto, unfolding(crate::specs::Asked::link_in, crate::specs::Asked::asked_by, crate::specs::Asked::read))]

ghost use Rattle.std.specs.Prelude.{◌≡◌, ◌&&◌, cond, ℕ, Bool, ◌+◌, ◌*◌, ◌≤◌, ◌<◌, ltb};
ghost use Rattle.rules.specs.Directory.{csd_limit, security_limit, covers, points_to};
ghost use Rattle.rules.specs.Entries.{has_day_in, meets, default_on};
ghost use Rattle.index.specs.Index.{newest_at, technical_number, link_numbers, targets, last_row, number_at};
ghost use Rattle.index.specs.Asked.{read, technical_by, link_in, older_at, leads, links_at, is_target, asked, asked_on};
ghost use Rattle.index.specs.Found.{leading_of, lead_in, wants, begins, found_by, found_in, day_after};
ghost use Rattle.rules.specs.declared.Link.{Link};

use crate::places::{
    ACCOUNT, FIRST, FLAG, INDEX, KIND, LAST, LAST_ROW, NEWEST, NEXT, TARGETS, TECHNICAL, of_cell,
};
use rules::{CSDS, Link, NO_ACCOUNT, SECURITIES};

// Where a CSD's links for a security lead by default: nowhere further for an issuer, else to a technical issuer, if there is a default link.
#[derive(Clone, Copy)]
pub enum Leading {
    Issuer,
    To(u8),
    Nowhere,
}

// What is looked for among the links.
#[derive(Clone, Copy)]
pub enum Wanted {
    Any,
    Issuers,
    Defaults,
    Towards(u8),
}

// A number of the link that stands there.
fn number_at(index: &[u16; INDEX], link: u16, number: usize) -> u16
    requires { (link ≤ last_row) × (number < link_numbers) }
    ensures { result ≡ number_at index.now (link + number) }
{
    index[(link as usize) + number]
}

// The number of the security and the CSD among those that stand from a place on, 0 beyond the tables.
fn number_by(index: &[u16; INDEX], from: usize, security: u8, csd: u8) -> u16
    requires { from ≤ targets }
    ensures { result ≡ cond (ltb security security_limit && ltb csd csd_limit) (number_at index.now (from + (security * csd_limit + csd))) 0 }
{
    let s = security as usize;
    let c = csd as usize;
    of_cell(index, from, s, SECURITIES, c, CSDS)
}

// Where the newest link of the CSD for the security stands, if it has one.
fn newest_link(index: &[u16; INDEX], security: u8, csd: u8) -> Option<u16>
    ensures { result ≡ begins (read index.now (newest_at security csd)) }
{
    let link = number_by(index, NEWEST, security, csd);
    if link == 0 || LAST_ROW < link {
        return None;
    }
    Some(link)
}

// The technical issuer of a link.
fn technical_of(index: &[u16; INDEX], link: u16) -> u8
    requires { link ≤ last_row }
    ensures { result ≡ technical_by (number_at index.now (link + technical_number)) }
{
    (number_at(index, link, TECHNICAL) % 256) as u8
}

// Whether the link is valid on the day; both ends are included.
fn is_valid(index: &[u16; INDEX], link: u16, day: u16) -> bool
    requires { link ≤ last_row }
    ensures { result ≡ covers day (link_in index.now 0 0 link) }
{
    (number_at(index, link, FIRST) <= day) & (day <= number_at(index, link, LAST))
}

// Whether the link has a day among these.
fn has_day_in(index: &[u16; INDEX], link: u16, first: u16, last: u16) -> bool
    requires { link ≤ last_row }
    ensures { result ≡ has_day_in first last (link_in index.now 0 0 link) }
{
    let begins = number_at(index, link, FIRST);
    let ends = number_at(index, link, LAST);
    ((first <= last) & (begins <= ends)) & ((first <= ends) & (begins <= last))
}

// Whether it is one of those looked for.
fn is_wanted(index: &[u16; INDEX], link: u16, wanted: Wanted) -> bool
    requires { link ≤ last_row }
    ensures { result ≡ wants wanted (link_in index.now 0 0 link) }
{
    let kind = number_at(index, link, KIND);
    match wanted {
        Wanted::Any => true,
        Wanted::Issuers => kind == 0,
        Wanted::Defaults => (kind == 1) & (number_at(index, link, FLAG) == 1),
        Wanted::Towards(technical) => (kind == 1) & (technical_of(index, link) == technical),
    }
}

// Both.
fn is_found(index: &[u16; INDEX], link: u16, first: u16, last: u16, wanted: Wanted) -> bool
    requires { link ≤ last_row }
    ensures { result ≡ (has_day_in first last (link_in index.now 0 0 link) && wants wanted (link_in index.now 0 0 link)) }
{
    has_day_in(index, link, first, last) & is_wanted(index, link, wanted)
}

// Where the newest link of the CSD for the security stands that passes the test, if one does.
fn newest_with<T: Fn(u16) -> bool>(
    index: &[u16; INDEX],
    security: u8,
    csd: u8,
    test: T,
) -> Option<u16>
    ghost told: { Link → Bool }
    requires callable { (p : ℕ) → p ≤ last_row → T.pre test p }
    requires tells { (p : ℕ) (b : Bool) → p ≤ last_row → T.post test p b → b ≡ told (link_in index.now security csd p) }
    ensures { result ≡ begins (found_by index.now security csd told) }
{
    let mut link = newest_link(index, security, csd)?;
    // A `while`: where the next older link stands, which is before this one, is read of this one.
    while !test(link) {
        let older = number_at(index, link, NEXT);
        if older == 0 || link <= older {
            return None;
        }
        link = older;
    }
    Some(link)
}

// Where the newest link of the CSD for the security stands that is looked for and has a day among these, if one does.
fn find_link(
    index: &[u16; INDEX],
    security: u8,
    csd: u8,
    first: u16,
    last: u16,
    wanted: Wanted,
) -> Option<u16>
    ensures { result ≡ begins (found_in index.now security csd first last wanted) }
{
    newest_with(
        index,
        security,
        csd,
        |link| is_found(index, link, first, last, wanted),
    )
}

// Whether the row's CSD has a link for its security that shares a day with it and is looked for.
pub fn meets_link(index: &[u16; INDEX], row: Link, wanted: Wanted) -> bool
    ensures { result ≡ meets (asked index.now) row (wants wanted) }
{
    find_link(index, row.security, row.csd, row.first, row.last, wanted).is_some()
}

// The day after the last of the CSD's default link for the security on a day, if it has one.
pub fn day_after_default(index: &[u16; INDEX], security: u8, csd: u8, day: u16) -> Option<u32>
    ensures { result ≡ day_after (default_on (links_at index.now security csd) day) }
{
    let link = find_link(index, security, csd, day, day, Wanted::Defaults)?;
    Some((number_at(index, link, LAST) as u32) + 1)
}

// Whether the link is an issuer link or a default link on the day.
fn leads_on(index: &[u16; INDEX], link: u16, day: u16) -> bool
    requires { link ≤ last_row }
    ensures { result ≡ (covers day (link_in index.now 0 0 link) && leads (link_in index.now 0 0 link)) }
{
    if !is_valid(index, link, day) {
        return false;
    }
    number_at(index, link, FLAG) == 1
}

// Whether the link is an investor link to the technical issuer on the day.
fn points_on(index: &[u16; INDEX], link: u16, technical: u8, day: u16) -> bool
    requires { link ≤ last_row }
    ensures { result ≡ (covers day (link_in index.now 0 0 link) && points_to technical (link_in index.now 0 0 link)) }
{
    if technical_of(index, link) != technical {
        return false;
    }
    (number_at(index, link, KIND) == 1) & is_valid(index, link, day)
}

// Where the CSD's issuer link or default link for the security on the day stands, if it has one.
fn lead_link(index: &[u16; INDEX], security: u8, csd: u8, day: u16) -> Option<u16>
    ensures { result ≡ begins (lead_in index.now security csd day) }
{
    newest_with(index, security, csd, |link| leads_on(index, link, day))
}

// Where the CSD's links for the security lead by default on the day.
pub fn leading_at(index: &[u16; INDEX], security: u8, csd: u8, day: u16) -> Leading
    ensures { result ≡ leading_of ((asked_on index.now day).issuer security csd) ((asked_on index.now day).onward security csd) }
{
    let Some(link) = lead_link(index, security, csd, day) else {
        return Leading::Nowhere;
    };
    if number_at(index, link, KIND) == 0 {
        return Leading::Issuer;
    }
    Leading::To(technical_of(index, link))
}

// The issuance account of the CSD's issuer link for the security on the day, hex FFFF where it has none.
pub fn issuance_of(index: &[u16; INDEX], security: u8, csd: u8, day: u16) -> u16
    ensures { result ≡ (asked_on index.now day).issuing security csd }
{
    match lead_link(index, security, csd, day) {
        Some(link) if number_at(index, link, KIND) == 0 => number_at(index, link, ACCOUNT),
        _ => NO_ACCOUNT,
    }
}

// Whether an investor link for the security has the CSD as technical issuer.
pub fn is_target(index: &[u16; INDEX], security: u8, csd: u8) -> bool
    ensures { result ≡ is_target index.now security csd }
{
    number_by(index, TARGETS, security, csd) != 0
}

// An investor link on the day, "default or alternative", to this technical issuer.
pub fn has_link_to(index: &[u16; INDEX], security: u8, csd: u8, technical: u8, day: u16) -> bool
    ensures { result ≡ (asked_on index.now day).linked security csd technical }
{
    if !is_target(index, security, technical) {
        return false;
    }
    newest_with(
        index,
        security,
        csd,
        |link| points_on(index, link, technical, day),
    )
    .is_some()
}

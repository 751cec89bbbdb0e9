// Booking of document 01 over an index: positions and cash moved. Lent lists may have any length and content: a place behind the end reads 0 and takes
// nothing. A call is decided on the lists as they are lent; only then are they changed, by functions that ask for what the tests have shown, so that no
// sum overflows, and that are private to the crate.
#![tactic(auto)]

pub(crate) mod numbers; // numbers.rt: one number of a list, changed
pub(crate) mod positions; // positions.rt: units of securities, moved
pub(crate) mod cash; // cash.rt: cents, paid
pub(crate) mod first_refusal; // first_refusal.rt: the first refusal that applies
pub mod way; // way.rt: into the books, or out of them
pub mod moves; // moves.rt: bring in and take out
pub mod payments; // payments.rt: pay in and pay out
pub mod settling; // settling.rt: settlement

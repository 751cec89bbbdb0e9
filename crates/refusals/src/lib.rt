// Whether a row may be entered after the rows before it: the refusals 5 to 11 and 24 of the documents, the first that applies.
#![tactic(auto)]

pub mod kept; // kept.rt: what is kept of a directory
pub mod entry; // entry.rt: a row to be entered, and what refuses CSDs, securities and accounts
mod pairs; // pairs.rt: what refuses a pair
mod links; // links.rt: what refuses a link

pub use entry::Entry;
pub use kept::Kept;

// What is held, over an index: positions and cash read, judged and totalled. Lent lists may have any length and content: a place behind the end reads 0.
// No list is changed.
#![tactic(auto)]

pub(crate) mod numbers; // numbers.rt: one number of a list, read
pub mod positions; // positions.rt: units of securities, read
pub mod cash; // cash.rt: cents, read; 21 and 22
pub mod judging; // judging.rt: 20 and 22 of steps
pub mod totals; // totals.rt: sums of balances, and of positions in a security

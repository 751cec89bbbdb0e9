// The walks of document 01 and the route in four cases, over the index of a directory. Every `pub fn` answers what a definition of `rules` says, for any
// numbers that it is lent as an index.
#![tactic(auto)]

pub mod sides; // sides.rt: the CSDs that a side names
pub mod ends; // ends.rt: how walks end, and the two ends judged together
pub mod walks; // walks.rt: default and directed walks
pub mod routes; // routes.rt: the CSDs of a chain in four cases

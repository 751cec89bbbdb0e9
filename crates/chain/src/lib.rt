// The chain of document 01 over the index of a directory: its steps with accounts, and the derivation.
#![tactic(auto)]

pub mod step_list; // step_list.rt: the steps of a chain as numbers in a lent list
mod climbed; // climbed.rt: one side climbed from its account
pub mod steps; // steps.rt: the steps along a route
pub mod derivation; // derivation.rt: the chain between two accounts, and the derivation for two halves

// The five entries of document 01 over the index of a directory: what each adds, unless it is refused.
#![tactic(auto)]

pub mod entries; // entries.rt: the five entries, and what each adds

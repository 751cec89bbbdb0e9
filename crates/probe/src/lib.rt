// The desk's functions over bytes and numbers, for a program in another language to hold them against its own. Any directory can be
// handed in, sound or not, and lists of any length.
#![tactic(auto)]

pub mod boundary; // boundary.rt: the calls, and their answers as numbers

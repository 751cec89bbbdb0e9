// The index of a directory: the answers to what entries, chains and bookings ask of the tables, each looked up at one place of a lent list of numbers.
#![tactic(auto)]

pub mod places; // places.rt: where each number stands, read and stored
pub mod lookups; // lookups.rt: questions to the index
pub mod links; // links.rt: questions to the links of a CSD for a security

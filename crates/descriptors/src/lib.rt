// Bytes read from an input and written to an output, through std's readers and writers.
#![tactic(auto)]

pub mod transfers; // transfers.rt: what one call of the system did
pub mod input; // input.rt: an input, read to its end
pub mod output; // output.rt: bytes written to an output, all of them

// The command stream: what stands at a place of the input, and each command's operands.
// Every public function is total: it answers at any place of any bytes.
#![tactic(auto)]

pub mod decoding; // decoding.rt: what bytes stand for, with 0 for those that are not there
pub mod operands; // operands.rt: the decoders, each handed the part of the input that starts at its operands
pub mod commands; // commands.rt: the widths of the commands, and the command at a place
pub mod reader; // reader.rt: the struct that holds the input and the place

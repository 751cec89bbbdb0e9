// What the example programs share: rows of any table, the examples' directories, entered row by row, and halves, answers and steps.
#![tactic(auto)]

mod rows; // rows.rt: a row of any table, and a directory with it
mod directories; // directories.rt: the rows of the examples' directories
mod instructions; // instructions.rt: a half of an instruction
mod printing; // printing.rt: answers and steps on standard output

pub use directories::{wider, worked_rows};
pub use instructions::half;
pub use printing::{put_answer, put_step};
pub use rows::{Row, link, with, with_all};

// The day of the calls.
pub const DAY: u16 = 0;

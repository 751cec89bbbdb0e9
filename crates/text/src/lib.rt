// The text that the program prints, piece by piece, appended in a lent buffer. Each function is handed the place where the text so far ends,
// and answers the place where it ends then. A buffer that is too short holds the text up to the buffer's end; nothing fails. A buffer and a place, and
// no writer: a stream writes a line from its end where it knows that there is room.
#![tactic(auto)]

pub mod pieces; // pieces.rt: words, and numbers in decimal digits
pub mod lines; // lines.rt: steps, totals, cash

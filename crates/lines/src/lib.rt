// The lines that the replay program writes.
#![tactic(auto)]

mod decimals; // decimals.rt: numbers as decimal digits
mod lines; // lines.rt: the lines, and the words of the last one

pub use lines::{answer_line, broken_line, put_end, put_newline, put_word};

// Text in and out: lines of numbers out of standard input, the call that such a line is, and into standard output what
// a call gave.
#![tactic(auto)]

mod answering; // answering.rt: what a call gave, as text
mod numbers; // numbers.rt: a line's words as numbers
mod reading; // reading.rt: standard input, one line at a time
mod script; // script.rt: a line's numbers as a call
mod writing; // writing.rt: standard output, through a buffer

pub use answering::{Answer, Said, Spaced};
pub use reading::Input;
pub use script::{Action, Line, Room, WORDS};
pub use writing::Output;

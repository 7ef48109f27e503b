// What is said of a journal that breaks.
use std::fmt;

// Where a journal broke: its record, counted from 1, and the byte at which that begins, counted from 0.
#[derive(Clone, Copy)]
pub struct Place {
    pub record: u64,
    pub byte: u64,
}

// What is said behind the two numbers, with the end of the line, so that it goes out in one piece.
const BREAKS: &str =
    " (the first byte is 0), is broken or cut short: nothing behind it was played\n";

impl fmt::Display for Place {
    fn fmt<W: fmt::Write>(&self, f: &mut fmt::Formatter<W>) -> fmt::Result {
        let Place { record, byte } = *self;
        write!(f, "record {record}, which begins at byte {byte}{BREAKS}")
    }
}

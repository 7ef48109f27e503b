// Runs a journal from standard input on a queue in lent slots, and
// writes what each record gave; last, the elements that are left.
#![tactic(auto)]

mod reading; // reading.rt: what is read, through a buffer
mod running; // running.rt: a journal, from its first byte to its last line
mod telling; // telling.rt: what is said of a journal that breaks

// The slots of a replay program.
pub const SLOTS: usize = 16000;

// The bytes of each of its buffers: many records, and many lines.
pub const BUFFER: usize = 65536;

pub use reading::pass_over;
pub use running::{Desk, Replayed, replay};
pub use telling::Place;

// What carries an element: the answers that hand one over or look at one, and the reading of slots.
#![tactic(auto)]

mod answers; // answers.rt: what an accepted call answers
mod slots; // slots.rt: one element, and a record for lent slots

pub use answers::{Handed, Step};
pub use slots::{element, fresh};

// The answer of a call in one form, whatever its kind: what programs, journals and sequences of calls go by.
#![tactic(auto)]

mod keeping; // keeping.rt: what a call can leave of a queue
mod pairs; // pairs.rt: calls on either of two queues, or on both
mod sights; // sights.rt: what a call saw that only looks
mod singles; // singles.rt: calls on one queue, and the one form itself

pub use keeping::Kept;
pub use pairs::StepAnswer;
pub use sights::Sight;
pub use singles::{Answer, of_change, of_handed};

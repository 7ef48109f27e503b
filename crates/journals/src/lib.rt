// Journals: records of bytes, and what each does to a queue.
#![tactic(auto)]

mod kinds; // kinds.rt: operations, and the bytes that name them
mod performing; // performing.rt: what an operation does to a queue
mod records; // records.rt: the record at a position of the bytes

pub use kinds::Operation;
pub use records::{Fault, Record, record_at};

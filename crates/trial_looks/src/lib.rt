// A script's queue: what is kept of it and shown, the looks that no sequence of calls has, and its walk.
#![tactic(auto)]

mod keeping; // keeping.rt: what is kept of a queue
mod looks; // looks.rt: the calls that only look
mod shown; // shown.rt: a queue as text
mod walking; // walking.rt: the calls of its walk

pub use keeping::{BothLent, Kept, Lent, Queues};

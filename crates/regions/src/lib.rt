// A queue moved into another region. The slots that it leaves are only read.
#![tactic(auto)]

mod portions; // portions.rt: some of its elements at a time, behind those of another queue
mod whole; // whole.rt: all of them at once, into a bare region

pub use portions::move_portion;
pub use whole::move_all;

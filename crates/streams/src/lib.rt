// Standard input and output for programs that lose nothing in silence: a call that is interrupted or not ready is made
// again, one that fails is said on standard error, and a program leaves the status that a script asks it for.
#![tactic(auto)]

mod judging; // judging.rt: what an answer of read or write means
mod moving; // moving.rt: reading and writing that go on
mod statuses; // statuses.rt: the status that a program leaves
mod telling; // telling.rt: what a program says on standard error
mod waiting; // waiting.rt: a little time between two tries

pub use statuses::{Failure, leave};
pub use telling::{read_input, say, tell, write_output};

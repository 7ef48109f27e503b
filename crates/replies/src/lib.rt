// What crosses to a caller from C or Rust, and back. The calls stand in the crates `exports_..`, each one call of the
// face; one archive has all.
// Every record crosses by reference, as words of the caller's memory: a call that changes a record changes it there,
// and what it says beside is a flat struct of plain numbers, every one set, that fits two registers. A record in a
// larger struct would come back through memory, as two words that are loaded as one, and wait there. A refused call
// stores no word. A lent slice crosses as a pointer and a length, and a test as a kind and a number. What a caller must
// keep to is said in include/scorebucket.h.
// Stays: the C interface has no enum with a value and no Option or Result. So here and in the crates `exports_..` what
// crosses is a refusal's number, a flag beside the value that it speaks of, an order's number, a test's kind and a
// record's words; everything behind them has types of its own.
#![tactic(auto)]

mod changes; // changes.rt: calls that change a list or a record
mod kinds; // kinds.rt: a test by its kind
mod looks; // looks.rt: calls that only look
mod records; // records.rt: the records as numbers in the caller's memory
mod stores; // stores.rt: calls that only look, and store a walk or the places of runs

pub use changes::{Reply, changed, handed, paired};
pub use kinds::test_of_kind;
pub use looks::{CountReply, FoundReply, OrderReply, SearchReply, TruthReply};
pub use records::{DRAIN, RECORD, RUNS, Stored, WALK, deque_in, drain_in, walk_in};
pub use stores::{looked, stepped};

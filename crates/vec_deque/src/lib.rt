// The face: every public item that a user of the queue names. Each call takes the
// lent slots, the record by value and its operands, and refuses what can't be met.
//
// A call that is accepted answers `Ok`, one that can change the queue with its new record: a `Change`, or a `Handed` where
// an element can be handed over. The record from before is stale then: it is still taken, since it is a good one, and
// nothing warns.
//
// A refused call answers `Err`, with the reason. It writes nothing, and the records that it was given stand as they did.

// The record, its place, what changes answer, and the refusals: 1 too many slots, 2 a record that is not good,
// 3 a position, 4 no room, 5 bytes that are no image, 6 a move into the queue that is open.
pub use elements::{Handed, fresh};
pub use places::WrappedIndex;
pub use queue::{Change, Deque, Refusal};

// A test of an element, for the conditional pops, `retain` and `partition_point`.
pub use conditions::Test;

// The ends.
pub use ends::{
    back, clear, front, get, pop_back, pop_back_if, pop_front, pop_front_if, push_back, push_front,
    truncate, truncate_front,
};

// An element in another's place.
pub use swaps::{swap, swap_remove_back, swap_remove_front};

// The middle.
pub use middle::{insert, remove};
pub use retains::retain;

// Lent slices, and other queues, whose slots and records are given beside ours.
pub use extends::{extend, extend_front, prepend, resize};
pub use joins::{append, split_off};
pub use queue::Pair;

// A queue moved into another region, whole or in portions. While more portions are to come, the new queue
// is marked: every other call of a kind that can change it is refused with 6, and each one that looks is not.
pub use regions::{move_all, move_portion};

// Drains and splices. An open drain stands for its queue: it is closed before the queue's next call.
pub use drains::{drain, drain_close, drain_next, drain_next_back};
pub use queue::Drain;
pub use splices::splice;

// The two runs of a range: the slots in which it stands.
pub use queue::{Runs, Span};
pub use runs::{back_run, front_run, slice_ranges};

// Walks, by value and borrowing.
pub use elements::Step;
pub use queue::Walk;
pub use walks::{Iterator, IteratorStep, begin_walk, iter, walk_next, walk_next_back};

// Comparing.
pub use comparisons::{cmp, contains, eq};

// Searching.
pub use search::{binary_search, partition_point};

// Saved images.
pub use images::{read_image, write_image};

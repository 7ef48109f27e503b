// A call on one of two queues, as a value, and the function that makes it: its contract is the step of the rules'
// sequences of calls.
// Not among the calls: a walk's, which keeps a record of its own, and `write_image`, to which bytes are lent to be
// written.
#![tactic(auto)]

mod held; // held.rt: a queue that calls are made on, and what they leave of it
mod steps; // steps.rt: a call on either queue, or on both

pub use held::Queue;
pub use steps::turn;
pub use turn_calls::{
    Ask, AskBoth, Call, DrainCall, Edit, Join, PairCall, QueueCall, QueueChange, Removal, Side,
};

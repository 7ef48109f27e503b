// The calls on two queues.
#![tactic(auto)]

mod queues; // queues.rt: another queue's elements behind ours, and our later elements into a bare target

pub use queues::{append, split_off};

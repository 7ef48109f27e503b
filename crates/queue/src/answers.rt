// What an accepted call answers. One that is refused answers its refusal, and the caller's records stand as they did:
// they are taken by value.
use super::records::{Deque, Span};

// The record after a call, and how many elements it moved.
#[derive(Clone, Copy)]
pub struct Change<R> {
    pub after: R,
    pub moved: usize,
}

// The record of the queue called on, and the other's.
#[derive(Clone, Copy)]
pub struct Pair {
    pub queue: Deque,
    pub other: Deque,
}

// The two runs of a range of positions.
#[derive(Clone, Copy)]
pub struct Runs {
    pub front: Span,
    pub back: Span,
}

// What a call saw that only looks.
use queue::Runs;
use std::cmp::Ordering;

// An element, or that there is none; a truth; an order; where a search ended, as `binary_search` tells it; a count; two
// runs.
#[derive(Clone, Copy)]
pub enum Sight {
    Element(Option<u32>),
    Truth(bool),
    Ordered(Ordering),
    Spot(Result<usize, usize>),
    Count(usize),
    Ranges(Runs),
}

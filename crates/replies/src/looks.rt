// The answers of the calls that only look. Refused, the other fields are 0 or false.
ghost use Rattle.std.specs.Prelude.{◌≡◌};
ghost use Rattle.elements.specs.Answers.{given};
ghost use Rattle.queue.specs.Looks.{look_of, order_of, seen, spot_of};
ghost use Rattle.replies.specs.InC.{look_in_c, order_number, spot_numbers};
ghost use Rattle.replies.specs.InC.{found_in_c, truth_in_c, order_in_c, spot_in_c, count_in_c};
ghost use Rattle.replies.specs.Replies.{of_found_reply, of_truth_reply, of_order_reply};
ghost use Rattle.replies.specs.Replies.{of_search_reply, of_count_reply};

use queue::Refusal;
use std::cmp::Ordering;

// What a look at one element answers: `found` is 1 where `number` stands there, else both are 0.
#[repr(C)]
#[derive(Clone, Copy)]
pub struct FoundReply {
    pub refused: u16,
    pub found: u16,
    pub number: u32,
}

// What a yes-or-no question answers.
#[repr(C)]
#[derive(Clone, Copy)]
pub struct TruthReply {
    pub refused: u16,
    pub is: bool,
}

// How two lists stand to each other: 1 less, 2 equal, 3 greater; refused, 0.
#[repr(C)]
#[derive(Clone, Copy)]
pub struct OrderReply {
    pub refused: u16,
    pub order: u16,
}

// What a search answers: `found` is 1 and `position` is where x stands, or 0 and where to insert it.
#[repr(C)]
#[derive(Clone, Copy)]
pub struct SearchReply {
    pub refused: u16,
    pub found: u16,
    pub position: usize,
}

// A number of elements or of bytes.
#[repr(C)]
#[derive(Clone, Copy)]
pub struct CountReply {
    pub refused: u16,
    pub count: usize,
}

// 0 and what was seen, or the refusal number and a blank.
fn flat<A: Copy>(answer: Result<A, Refusal>, blank: A) -> (u16, A)
    ensures { result ≡ look_in_c (λ a. a) blank (seen answer) }
{
    match answer {
        Ok(seen) => (0, seen),
        Err(refusal) => (refusal.number(), blank),
    }
}

// The answer of `get`, `front` and `back`.
impl From<Result<Option<u32>, Refusal>> for FoundReply {
    ghost from_gives = { λ found reply. of_found_reply reply ≡ found_in_c (look_of given found) };

    // Stays: an answer for each case, and not one that `crossing` and `flat` put together: `get` took 5.2 ns for 3.6.
    fn from(found: Result<Option<u32>, Refusal>) -> FoundReply {
        match found {
            Ok(Some(number)) => FoundReply {
                refused: 0,
                found: 1,
                number,
            },
            Ok(None) => FoundReply {
                refused: 0,
                found: 0,
                number: 0,
            },
            Err(refusal) => FoundReply {
                refused: refusal.number(),
                found: 0,
                number: 0,
            },
        }
    }
}

// The answer of `contains` and `eq`.
impl From<Result<bool, Refusal>> for TruthReply {
    ghost from_gives = { λ truth reply. of_truth_reply reply ≡ truth_in_c (seen truth) };

    fn from(truth: Result<bool, Refusal>) -> TruthReply {
        let (refused, is) = flat(truth, false);
        TruthReply { refused, is }
    }
}

// The number of an order.
fn order_number(ordering: Ordering) -> u16
    ensures { result ≡ order_number (order_of ordering) }
{
    match ordering {
        Ordering::Less => 1,
        Ordering::Equal => 2,
        Ordering::Greater => 3,
    }
}

// The answer of `cmp`.
impl From<Result<Ordering, Refusal>> for OrderReply {
    ghost from_gives = { λ ordering reply. of_order_reply reply ≡ order_in_c (look_of order_of ordering) };

    fn from(ordering: Result<Ordering, Refusal>) -> OrderReply {
        let (refused, order) = flat(ordering.map(order_number), 0);
        OrderReply { refused, order }
    }
}

// The position of a search's answer, and whether x stands there: 1, or 0.
fn spot_numbers(spot: Result<usize, usize>) -> (usize, u16)
    ensures { result ≡ spot_numbers (spot_of spot) }
{
    match spot {
        Ok(position) => (position, 1),
        Err(position) => (position, 0),
    }
}

// The answer of `binary_search`.
impl From<Result<Result<usize, usize>, Refusal>> for SearchReply {
    ghost from_gives = { λ spot reply. of_search_reply reply ≡ spot_in_c (look_of spot_of spot) };

    fn from(spot: Result<Result<usize, usize>, Refusal>) -> SearchReply {
        let (refused, (position, found)) = flat(spot.map(spot_numbers), (0, 0));
        SearchReply {
            refused,
            found,
            position,
        }
    }
}

// The answer of `partition_point` and `write_image`.
impl From<Result<usize, Refusal>> for CountReply {
    ghost from_gives = { λ count reply. of_count_reply reply ≡ count_in_c (seen count) };

    fn from(count: Result<usize, Refusal>) -> CountReply {
        let (refused, count) = flat(count, 0);
        CountReply { refused, count }
    }
}

// The calls for C and Rust that look at one element, or ask where many stand. What crosses is said in `replies`.
#![tactic(auto, using(replies::proofs::Crossing::crossing))]

ghost use Rattle.std.specs.Prelude.{◌≡◌};
ghost use Rattle.rules.specs.Looks.{look_at, at_position, at_back};
ghost use Rattle.rules.specs.Runs.{look_runs};
ghost use Rattle.replies.specs.InC.{found_in_c, runs_in_c};
ghost use Rattle.replies.specs.Records.{rec_in};
ghost use Rattle.replies.specs.Replies.{of_found_reply};

use replies::{FoundReply, RECORD, RUNS, deque_in, looked};

// The element at position i.
#[unsafe(no_mangle)]
pub extern "C" fn scorebucket_get(slots: &[u32], q: &[usize; RECORD], i: usize) -> FoundReply
    ensures { of_found_reply result
        ≡ found_in_c (look_at slots.now (rec_in q.now) (at_position i)) }
{
    ends::get(slots, deque_in(q), i).into()
}

// The first element.
#[unsafe(no_mangle)]
pub extern "C" fn scorebucket_front(slots: &[u32], q: &[usize; RECORD]) -> FoundReply
    ensures { of_found_reply result
        ≡ found_in_c (look_at slots.now (rec_in q.now) (at_position 0)) }
{
    ends::front(slots, deque_in(q)).into()
}

// The last element.
#[unsafe(no_mangle)]
pub extern "C" fn scorebucket_back(slots: &[u32], q: &[usize; RECORD]) -> FoundReply
    ensures { of_found_reply result ≡ found_in_c (look_at slots.now (rec_in q.now) at_back) }
{
    ends::back(slots, deque_in(q)).into()
}

// The places of the two runs of positions start..end. Gives the refusal number, or 0.
#[unsafe(no_mangle)]
pub extern "C" fn scorebucket_slice_ranges(
    slots: &[u32],
    q: &[usize; RECORD],
    start: usize,
    end: usize,
    places: &mut [usize; RUNS],
) -> u16
    ensures { (result, places.new)
        ≡ runs_in_c places.old (look_runs slots.now (rec_in q.now) start end) }
{
    looked(places, runs::slice_ranges(slots, deque_in(q), start, end))
}

// The calls for C and Rust that put an element in another's place. What crosses is said in `replies`.
#![tactic(auto, using(replies::proofs::Crossing::crossing))]

ghost use Rattle.std.specs.Prelude.{◌≡◌};
ghost use Rattle.rules.specs.Ends.{exchange, swap_remove_front, swap_remove_back};
ghost use Rattle.rules.specs.Outcome.{do_rule};
ghost use Rattle.replies.specs.InC.{told_in_c};
ghost use Rattle.replies.specs.Records.{rec_in};
ghost use Rattle.replies.specs.Replies.{of_reply};

use replies::{RECORD, Reply, changed, deque_in, handed};

// Exchanges the elements at positions i and j.
#[unsafe(no_mangle)]
pub extern "C" fn scorebucket_swap(
    slots: &mut [u32],
    q: &mut [usize; RECORD],
    i: usize,
    j: usize,
) -> Reply
    ensures { (of_reply result, q.new, slots.new)
        ≡ told_in_c q.old (do_rule slots.old (rec_in q.old) (exchange i j)) }
{
    let before = deque_in(q);
    changed(q, swaps::swap(slots, before, i, j))
}

// Hands the element at position i over, and puts the first one in its place.
#[unsafe(no_mangle)]
pub extern "C" fn scorebucket_swap_remove_front(
    slots: &mut [u32],
    q: &mut [usize; RECORD],
    i: usize,
) -> Reply
    ensures { (of_reply result, q.new, slots.new)
        ≡ told_in_c q.old (do_rule slots.old (rec_in q.old) (swap_remove_front i)) }
{
    let before = deque_in(q);
    handed(q, swaps::swap_remove_front(slots, before, i))
}

// Hands the element at position i over, and puts the last one in its place.
#[unsafe(no_mangle)]
pub extern "C" fn scorebucket_swap_remove_back(
    slots: &mut [u32],
    q: &mut [usize; RECORD],
    i: usize,
) -> Reply
    ensures { (of_reply result, q.new, slots.new)
        ≡ told_in_c q.old (do_rule slots.old (rec_in q.old) (swap_remove_back i)) }
{
    let before = deque_in(q);
    handed(q, swaps::swap_remove_back(slots, before, i))
}

// The calls for C and Rust that add an element at an end, or hand the one there over. What crosses is said in
// `replies`.
#![tactic(auto, using(replies::proofs::Crossing::crossing))]

ghost use Rattle.std.specs.Prelude.{◌≡◌};
ghost use Rattle.rules.specs.Ends.{pop_front, pop_back, push_back, push_front};
ghost use Rattle.rules.specs.Outcome.{do_rule};
ghost use Rattle.replies.specs.InC.{told_in_c};
ghost use Rattle.replies.specs.Records.{rec_in};
ghost use Rattle.replies.specs.Replies.{of_reply};

use replies::{RECORD, Reply, changed, deque_in, handed};

// Appends v.
#[unsafe(no_mangle)]
pub extern "C" fn scorebucket_push_back(slots: &mut [u32], q: &mut [usize; RECORD], v: u32) -> Reply
    ensures { (of_reply result, q.new, slots.new)
        ≡ told_in_c q.old (do_rule slots.old (rec_in q.old) (push_back v)) }
{
    let before = deque_in(q);
    changed(q, ends::push_back(slots, before, v))
}

// Puts v in front.
#[unsafe(no_mangle)]
pub extern "C" fn scorebucket_push_front(
    slots: &mut [u32],
    q: &mut [usize; RECORD],
    v: u32,
) -> Reply
    ensures { (of_reply result, q.new, slots.new)
        ≡ told_in_c q.old (do_rule slots.old (rec_in q.old) (push_front v)) }
{
    let before = deque_in(q);
    changed(q, ends::push_front(slots, before, v))
}

// Hands the first element over.
#[unsafe(no_mangle)]
pub extern "C" fn scorebucket_pop_front(slots: &[u32], q: &mut [usize; RECORD]) -> Reply
    ensures { (of_reply result, q.new, slots.now)
        ≡ told_in_c q.old (do_rule slots.now (rec_in q.old) pop_front) }
{
    let before = deque_in(q);
    handed(q, ends::pop_front(slots, before))
}

// Hands the last element over.
#[unsafe(no_mangle)]
pub extern "C" fn scorebucket_pop_back(slots: &[u32], q: &mut [usize; RECORD]) -> Reply
    ensures { (of_reply result, q.new, slots.now)
        ≡ told_in_c q.old (do_rule slots.now (rec_in q.old) pop_back) }
{
    let before = deque_in(q);
    handed(q, ends::pop_back(slots, before))
}

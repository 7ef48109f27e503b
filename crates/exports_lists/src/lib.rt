// The calls for C and Rust that add a list at an end. What crosses is said in `replies`.
#![tactic(auto, using(replies::proofs::Crossing::crossing))]

ghost use Rattle.std.specs.Prelude.{◌≡◌};
ghost use Rattle.rules.specs.Joins.{extend_with, prepend, extend_front, resize};
ghost use Rattle.rules.specs.Outcome.{do_rule};
ghost use Rattle.replies.specs.InC.{told_in_c};
ghost use Rattle.replies.specs.Records.{rec_in};
ghost use Rattle.replies.specs.Replies.{of_reply};

use replies::{RECORD, Reply, changed, deque_in};

// Appends the values.
#[unsafe(no_mangle)]
pub extern "C" fn scorebucket_extend(
    slots: &mut [u32],
    q: &mut [usize; RECORD],
    values: &[u32],
) -> Reply
    ensures { (of_reply result, q.new, slots.new)
        ≡ told_in_c q.old
        (do_rule slots.old (rec_in q.old) (extend_with values.now)) }
{
    let before = deque_in(q);
    changed(q, extends::extend(slots, before, values))
}

// Puts the values in front, in their order.
#[unsafe(no_mangle)]
pub extern "C" fn scorebucket_prepend(
    slots: &mut [u32],
    q: &mut [usize; RECORD],
    values: &[u32],
) -> Reply
    ensures { (of_reply result, q.new, slots.new)
        ≡ told_in_c q.old
        (do_rule slots.old (rec_in q.old) (prepend values.now)) }
{
    let before = deque_in(q);
    changed(q, extends::prepend(slots, before, values))
}

// Puts the values in front, the last of them first.
#[unsafe(no_mangle)]
pub extern "C" fn scorebucket_extend_front(
    slots: &mut [u32],
    q: &mut [usize; RECORD],
    values: &[u32],
) -> Reply
    ensures { (of_reply result, q.new, slots.new)
        ≡ told_in_c q.old
        (do_rule slots.old (rec_in q.old) (extend_front values.now)) }
{
    let before = deque_in(q);
    changed(q, extends::extend_front(slots, before, values))
}

// Truncates to the first n elements, or appends copies of v up to n.
#[unsafe(no_mangle)]
pub extern "C" fn scorebucket_resize(
    slots: &mut [u32],
    q: &mut [usize; RECORD],
    n: usize,
    v: u32,
) -> Reply
    ensures { (of_reply result, q.new, slots.new)
        ≡ told_in_c q.old (do_rule slots.old (rec_in q.old) (resize n v)) }
{
    let before = deque_in(q);
    changed(q, extends::resize(slots, before, n, v))
}

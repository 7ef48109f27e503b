// The calls for C and Rust on two queues. What crosses is said in `replies`.
#![tactic(auto, using(replies::proofs::Crossing::crossing))]

ghost use Rattle.std.specs.Prelude.{◌≡◌};
ghost use Rattle.rules.specs.Pairs.{do_append, do_split};
ghost use Rattle.replies.specs.InC.{pair_told_in_c};
ghost use Rattle.replies.specs.Records.{rec_in};
ghost use Rattle.replies.specs.Replies.{of_reply};

use replies::{RECORD, Reply, deque_in, paired};

// Copies the other queue's elements behind ours, and empties the other.
#[unsafe(no_mangle)]
pub extern "C" fn scorebucket_append(
    slots: &mut [u32],
    q: &mut [usize; RECORD],
    other_slots: &[u32],
    other: &mut [usize; RECORD],
) -> Reply
    ensures { (of_reply result, q.new, other.new, slots.new, other_slots.now)
        ≡ pair_told_in_c q.old other.old
        (do_append slots.old (rec_in q.old)
        other_slots.now (rec_in other.old)) }
{
    let before = deque_in(q);
    let other_before = deque_in(other);
    paired(
        q,
        other,
        joins::append(slots, before, other_slots, other_before),
    )
}

// Fills a bare target with the elements from position `at` on, and its record, which leaves the first `at` in ours.
#[unsafe(no_mangle)]
pub extern "C" fn scorebucket_split_off(
    slots: &[u32],
    q: &mut [usize; RECORD],
    at: usize,
    target: &mut [u32],
    t: &mut [usize; RECORD],
) -> Reply
    ensures { (of_reply result, q.new, t.new, slots.now, target.new)
        ≡ pair_told_in_c q.old t.old
        (do_split slots.now (rec_in q.old) target.old at) }
{
    let before = deque_in(q);
    paired(q, t, joins::split_off(slots, before, at, target))
}

// The calls for C and Rust that cut elements off. What crosses is said in `replies`.
#![tactic(auto, using(replies::proofs::Crossing::crossing))]

ghost use Rattle.std.specs.Prelude.{◌≡◌};
ghost use Rattle.rules.specs.Ends.{truncate, truncate_front, clear};
ghost use Rattle.rules.specs.Outcome.{do_rule};
ghost use Rattle.replies.specs.InC.{told_in_c};
ghost use Rattle.replies.specs.Records.{rec_in};
ghost use Rattle.replies.specs.Replies.{of_reply};

use replies::{RECORD, Reply, changed, deque_in};

// Keeps the first n.
#[unsafe(no_mangle)]
pub extern "C" fn scorebucket_truncate(slots: &[u32], q: &mut [usize; RECORD], n: usize) -> Reply
    ensures { (of_reply result, q.new, slots.now)
        ≡ told_in_c q.old (do_rule slots.now (rec_in q.old) (truncate n)) }
{
    let before = deque_in(q);
    changed(q, ends::truncate(slots, before, n))
}

// Keeps the last n.
#[unsafe(no_mangle)]
pub extern "C" fn scorebucket_truncate_front(
    slots: &[u32],
    q: &mut [usize; RECORD],
    n: usize,
) -> Reply
    ensures { (of_reply result, q.new, slots.now)
        ≡ told_in_c q.old (do_rule slots.now (rec_in q.old) (truncate_front n)) }
{
    let before = deque_in(q);
    changed(q, ends::truncate_front(slots, before, n))
}

// Keeps none.
#[unsafe(no_mangle)]
pub extern "C" fn scorebucket_clear(slots: &[u32], q: &mut [usize; RECORD]) -> Reply
    ensures { (of_reply result, q.new, slots.now)
        ≡ told_in_c q.old (do_rule slots.now (rec_in q.old) clear) }
{
    let before = deque_in(q);
    changed(q, ends::clear(slots, before))
}

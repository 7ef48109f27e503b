// The calls for C and Rust in a queue's middle. What crosses is said in `replies`.
#![tactic(auto, using(replies::proofs::Crossing::crossing))]

ghost use Rattle.std.specs.Prelude.{◌≡◌};
ghost use Rattle.rules.specs.Middle.{insert_at, remove_at};
ghost use Rattle.rules.specs.Outcome.{do_rule};
ghost use Rattle.rules.specs.Splice.{splice};
ghost use Rattle.replies.specs.InC.{told_in_c};
ghost use Rattle.replies.specs.Records.{rec_in};
ghost use Rattle.replies.specs.Replies.{of_reply};

use replies::{RECORD, Reply, changed, deque_in, handed};

// Puts v at position i.
#[unsafe(no_mangle)]
pub extern "C" fn scorebucket_insert(
    slots: &mut [u32],
    q: &mut [usize; RECORD],
    i: usize,
    v: u32,
) -> Reply
    ensures { (of_reply result, q.new, slots.new)
        ≡ told_in_c q.old (do_rule slots.old (rec_in q.old) (insert_at i v)) }
{
    let before = deque_in(q);
    changed(q, middle::insert(slots, before, i, v))
}

// Hands the element at position i over.
#[unsafe(no_mangle)]
pub extern "C" fn scorebucket_remove(slots: &mut [u32], q: &mut [usize; RECORD], i: usize) -> Reply
    ensures { (of_reply result, q.new, slots.new)
        ≡ told_in_c q.old (do_rule slots.old (rec_in q.old) (remove_at i)) }
{
    let before = deque_in(q);
    handed(q, middle::remove(slots, before, i))
}

// Replaces the elements from position `start` up to `end` by the values.
#[unsafe(no_mangle)]
pub extern "C" fn scorebucket_splice(
    slots: &mut [u32],
    q: &mut [usize; RECORD],
    start: usize,
    end: usize,
    values: &[u32],
) -> Reply
    ensures { (of_reply result, q.new, slots.new)
        ≡ told_in_c q.old
        (do_rule slots.old (rec_in q.old) (splice start end values.now)) }
{
    let before = deque_in(q);
    changed(q, splices::splice(slots, before, start, end, values))
}

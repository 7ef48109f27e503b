// The calls for C and Rust that move a queue into another region. What crosses is said in `replies`.
#![tactic(auto, using(replies::proofs::Crossing::crossing))]

ghost use Rattle.std.specs.Prelude.{◌≡◌};
ghost use Rattle.rules.specs.Regions.{do_move, do_portion};
ghost use Rattle.replies.specs.InC.{pair_told_in_c};
ghost use Rattle.replies.specs.Records.{rec_in};
ghost use Rattle.replies.specs.Replies.{of_reply};

use replies::{RECORD, Reply, deque_in, paired};

// Fills a bare region with every element, and its record, and empties our queue.
#[unsafe(no_mangle)]
pub extern "C" fn scorebucket_move_all(
    slots: &[u32],
    q: &mut [usize; RECORD],
    target: &mut [u32],
    t: &mut [usize; RECORD],
) -> Reply
    ensures { (of_reply result, q.new, t.new, slots.now, target.new)
        ≡ pair_told_in_c q.old t.old
        (do_move slots.now (rec_in q.old) target.old) }
{
    let before = deque_in(q);
    paired(q, t, regions::move_all(slots, before, target))
}

// Moves the first `n` elements, or all if there are fewer, behind the other queue's, whose mark is set while ours keeps
// elements.
#[unsafe(no_mangle)]
pub extern "C" fn scorebucket_move_portion(
    slots: &[u32],
    q: &mut [usize; RECORD],
    n: usize,
    target: &mut [u32],
    other: &mut [usize; RECORD],
) -> Reply
    ensures { (of_reply result, q.new, other.new, slots.now, target.new)
        ≡ pair_told_in_c q.old other.old
        (do_portion slots.now (rec_in q.old)
        target.old (rec_in other.old) n) }
{
    let ours = deque_in(q);
    let theirs = deque_in(other);
    paired(
        q,
        other,
        regions::move_portion(slots, ours, n, target, theirs),
    )
}

// The calls for C and Rust of a drain. What crosses is said in `replies`.
#![tactic(auto, using(replies::proofs::Crossing::crossing))]

ghost use Rattle.std.specs.Prelude.{◌≡◌};
ghost use Rattle.rules.specs.Outcome.{do_open, do_next, do_next_back, do_close};
ghost use Rattle.replies.specs.InC.{told_in_c};
ghost use Rattle.replies.specs.Records.{rec_in, drain_in};
ghost use Rattle.replies.specs.Replies.{of_reply};

use replies::{DRAIN, RECORD, Reply, changed, deque_in, drain_in, handed};

// Opens a drain of the positions from `start` up to `end`. Until it is closed, its record stands for the queue's.
#[unsafe(no_mangle)]
pub extern "C" fn scorebucket_drain(
    slots: &[u32],
    q: &[usize; RECORD],
    start: usize,
    end: usize,
    d: &mut [usize; DRAIN],
) -> Reply
    ensures { (of_reply result, d.new, slots.now)
        ≡ told_in_c d.old (do_open slots.now (rec_in q.now) start end) }
{
    changed(d, drains::drain(slots, deque_in(q), start, end))
}

// Hands the first remaining element over.
#[unsafe(no_mangle)]
pub extern "C" fn scorebucket_drain_next(slots: &[u32], d: &mut [usize; DRAIN]) -> Reply
    ensures { (of_reply result, d.new, slots.now)
        ≡ told_in_c d.old (do_next slots.now (drain_in d.old)) }
{
    let before = drain_in(d);
    handed(d, drains::drain_next(slots, before))
}

// Hands the last remaining element over.
#[unsafe(no_mangle)]
pub extern "C" fn scorebucket_drain_next_back(slots: &[u32], d: &mut [usize; DRAIN]) -> Reply
    ensures { (of_reply result, d.new, slots.now)
        ≡ told_in_c d.old (do_next_back slots.now (drain_in d.old)) }
{
    let before = drain_in(d);
    handed(d, drains::drain_next_back(slots, before))
}

// Closes the drain: what was not handed over leaves, and the queue is whole again.
#[unsafe(no_mangle)]
pub extern "C" fn scorebucket_drain_close(
    slots: &mut [u32],
    d: &[usize; DRAIN],
    q: &mut [usize; RECORD],
) -> Reply
    ensures { (of_reply result, q.new, slots.new)
        ≡ told_in_c q.old (do_close slots.old (drain_in d.now)) }
{
    changed(q, drains::drain_close(slots, drain_in(d)))
}

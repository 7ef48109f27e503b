// The calls for C and Rust of a walk. What crosses is said in `replies`.
#![tactic(auto, using(replies::proofs::Crossing::crossing))]

ghost use Rattle.std.specs.Prelude.{◌≡◌};
ghost use Rattle.rules.specs.Walks.{begin_walk, next_step, next_back_step};
ghost use Rattle.replies.specs.InC.{begun_in_c, step_in_c};
ghost use Rattle.replies.specs.Records.{rec_in, walk_in};
ghost use Rattle.replies.specs.Replies.{of_found_reply};

use replies::{FoundReply, RECORD, WALK, deque_in, looked, stepped, walk_in};

// A walk over the whole list. Gives the refusal number, or 0.
#[unsafe(no_mangle)]
pub extern "C" fn scorebucket_begin_walk(
    slots: &[u32],
    q: &[usize; RECORD],
    w: &mut [usize; WALK],
) -> u16
    ensures { (result, w.new)
        ≡ begun_in_c w.old (begin_walk slots.now (rec_in q.now)) }
{
    looked(w, walks::begin_walk(slots, deque_in(q)))
}

// Gives the element at the low end, which steps on by one.
#[unsafe(no_mangle)]
pub extern "C" fn scorebucket_walk_next(slots: &[u32], w: &mut [usize; WALK]) -> FoundReply
    ensures { (of_found_reply result, w.new)
        ≡ step_in_c w.old (next_step slots.now (walk_in w.old)) }
{
    let before = walk_in(w);
    stepped(w, walks::walk_next(slots, before))
}

// Gives the element before the high end, which steps back by one.
#[unsafe(no_mangle)]
pub extern "C" fn scorebucket_walk_next_back(slots: &[u32], w: &mut [usize; WALK]) -> FoundReply
    ensures { (of_found_reply result, w.new)
        ≡ step_in_c w.old (next_back_step slots.now (walk_in w.old)) }
{
    let before = walk_in(w);
    stepped(w, walks::walk_next_back(slots, before))
}

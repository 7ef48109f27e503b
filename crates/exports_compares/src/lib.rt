// The calls for C and Rust that speak of the lists only. What crosses is said in `replies`.
#![tactic(auto)]

ghost use Rattle.std.specs.Prelude.{◌≡◌};
ghost use Rattle.rules.specs.Looks.{look_at, look_at_both, has, same, order};
ghost use Rattle.replies.specs.InC.{truth_in_c, order_in_c};
ghost use Rattle.replies.specs.Records.{rec_in};
ghost use Rattle.replies.specs.Replies.{of_truth_reply, of_order_reply};

use replies::{OrderReply, RECORD, TruthReply, deque_in};

// Whether x stands in the queue.
#[unsafe(no_mangle)]
pub extern "C" fn scorebucket_contains(slots: &[u32], q: &[usize; RECORD], x: u32) -> TruthReply
    ensures { of_truth_reply result ≡ truth_in_c (look_at slots.now (rec_in q.now) (has x)) }
{
    comparisons::contains(slots, deque_in(q), x).into()
}

// Whether the two queues hold the same list.
#[unsafe(no_mangle)]
pub extern "C" fn scorebucket_eq(
    slots: &[u32],
    q: &[usize; RECORD],
    other_slots: &[u32],
    other: &[usize; RECORD],
) -> TruthReply
    ensures { of_truth_reply result
        ≡ truth_in_c (look_at_both slots.now (rec_in q.now)
        other_slots.now (rec_in other.now) same) }
{
    let ours = deque_in(q);
    let theirs = deque_in(other);
    comparisons::eq(slots, ours, other_slots, theirs).into()
}

// How the list of the queue stands to that of the other in lexicographic order.
#[unsafe(no_mangle)]
pub extern "C" fn scorebucket_cmp(
    slots: &[u32],
    q: &[usize; RECORD],
    other_slots: &[u32],
    other: &[usize; RECORD],
) -> OrderReply
    ensures { of_order_reply result
        ≡ order_in_c (look_at_both slots.now (rec_in q.now)
        other_slots.now (rec_in other.now) order) }
{
    let ours = deque_in(q);
    let theirs = deque_in(other);
    comparisons::cmp(slots, ours, other_slots, theirs).into()
}

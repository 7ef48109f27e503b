// Another queue's elements behind ours, and our later elements into a bare target.
ghost use Rattle.std.specs.Prelude.{◌≡◌, ◌+◌, ◌-◌, ◌≤◌, OnOk};
ghost use Rattle.rules.specs.Pairs.{on_appending, on_splitting, do_append, do_split, told_pair};
ghost use Rattle.rules.specs.Refusals.{most_slots};
ghost use Rattle.queue.specs.Answers.{Fits, rec_of, number_in};
ghost use Rattle.queue.specs.Pairs.{of_joined, of_split};

use places::WrappedIndex;
use queue::{Change, Deque, Pair, Refusal};

// The tests of `append`, in their order: our queue's, the other's, then whether the other's elements fit behind ours.
#[tactic(auto, using(extends::proofs::Asks::asks), unfolding(rules::specs::Pairs::on_appending))]
fn check_append(cap: usize, q: Deque, other_cap: usize, other: Deque) -> Result<(), Refusal>
    ensures number { number_in result ≡ on_appending cap (rec_of q) other_cap (rec_of other) }
    ensures fits { OnOk result (Fits cap q × Fits other_cap other × (q.len + other.len ≤ cap)) }
{
    queue::check_change(cap, q)?;
    queue::check_change(other_cap, other)?;
    if other.len > cap - q.len {
        return Err(Refusal::Room);
    }
    Ok(())
}

// The tests of `split_off`, in their order: our queue's, the bare
// target's slots, the position, then whether the later elements fit.
#[tactic(auto, using(extends::proofs::Asks::asks), unfolding(rules::specs::Pairs::on_splitting))]
fn check_split(cap: usize, q: Deque, target_cap: usize, at: usize) -> Result<(), Refusal>
    ensures number { number_in result ≡ on_splitting cap (rec_of q) target_cap at }
    ensures fits { OnOk result (Fits cap q × (target_cap ≤ most_slots) × (at ≤ q.len) × (q.len - at ≤ target_cap)) }
{
    queue::check_change(cap, q)?;
    if target_cap > rules::most_slots() {
        return Err(Refusal::Slots);
    }
    if at > q.len {
        return Err(Refusal::Position);
    }
    if q.len - at > target_cap {
        return Err(Refusal::Room);
    }
    Ok(())
}

// Copies the other queue's elements behind ours, and empties the other.
#[tactic(auto, using(crate::proofs::Pairs::appends))]
pub fn append(
    slots: &mut [u32],
    q: Deque,
    other_slots: &[u32],
    other: Deque,
) -> Result<Change<Pair>, Refusal>
    ensures { (of_joined q other result, slots.new, other_slots.now)
        ≡ told_pair (do_append slots.old (rec_of q) other_slots.now (rec_of other)) }
{
    let cap = slots.len();
    check_append(cap, q, other_slots.len(), other)?;
    let behind = places::wrap_add(cap, q.head, q.len);
    crossings::copy_range(slots, behind, other_slots, other, 0, other.len);
    Ok(Change {
        after: Pair {
            queue: queue::stepped(q, q.head, q.len + other.len),
            other: queue::stepped(other, WrappedIndex::zero(), 0),
        },
        moved: other.len,
    })
}

// Fills a bare target from its first slot on with the elements
// from position `at` on, which leaves the first `at` in ours.
#[tactic(auto, using(crate::proofs::Pairs::splits))]
pub fn split_off(
    slots: &[u32],
    q: Deque,
    at: usize,
    target: &mut [u32],
) -> Result<Change<Pair>, Refusal>
    ensures { (of_split q result, slots.now, target.new)
        ≡ told_pair (do_split slots.now (rec_of q) target.old at) }
{
    check_split(slots.len(), q, target.len(), at)?;
    let later = q.len - at;
    crossings::copy_range(target, WrappedIndex::zero(), slots, q, at, later);
    Ok(Change {
        after: Pair {
            queue: queue::stepped(q, q.head, at),
            other: queue::new_record(later),
        },
        moved: later,
    })
}

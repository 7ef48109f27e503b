// All elements of a queue at once, into a bare region.
ghost use Rattle.std.specs.Prelude.{◌≡◌, ◌≤◌, OnOk};
ghost use Rattle.rules.specs.Pairs.{told_pair};
ghost use Rattle.rules.specs.Refusals.{most_slots};
ghost use Rattle.rules.specs.Regions.{on_moving, do_move};
ghost use Rattle.queue.specs.Answers.{Fits, rec_of, number_in};
ghost use Rattle.queue.specs.Pairs.{of_split};

use places::WrappedIndex;
use queue::{Change, Deque, Pair, Refusal};

// The tests of `move_all`, in their order: our queue's, the bare region's slots, then whether all elements fit there.
#[tactic(auto, using(crate::proofs::Asks::asks), unfolding(rules::specs::Regions::on_moving))]
fn check_move(cap: usize, q: Deque, target_cap: usize) -> Result<(), Refusal>
    ensures number { number_in result ≡ on_moving cap (rec_of q) target_cap }
    ensures fits { OnOk result (Fits cap q × (target_cap ≤ most_slots) × (q.len ≤ target_cap)) }
{
    queue::check_change(cap, q)?;
    if target_cap > rules::most_slots() {
        return Err(Refusal::Slots);
    }
    if q.len > target_cap {
        return Err(Refusal::Room);
    }
    Ok(())
}

// Moves every element into a bare region, larger or smaller, from its first slot on, and empties the queue.
#[tactic(auto, using(crate::proofs::Moves::moves))]
pub fn move_all(slots: &[u32], q: Deque, target: &mut [u32]) -> Result<Change<Pair>, Refusal>
    ensures { (of_split q result, slots.now, target.new)
        ≡ told_pair (do_move slots.now (rec_of q) target.old) }
{
    check_move(slots.len(), q, target.len())?;
    // the two runs come to stand one behind the other
    //
    //         . .         H .
    // slots  [C D _ _ _ _ A B]
    // target [A B C D _ _ _ _ _ _ _ _]
    //         H . . .
    //
    let first = WrappedIndex::zero();
    crossings::copy_range(target, first, slots, q, 0, q.len);
    Ok(Change {
        after: Pair {
            queue: queue::stepped(q, first, 0),
            other: queue::new_record(q.len),
        },
        moved: q.len,
    })
}

// What crosses from one queue's slots into another's: a copy of a range of elements.
#![tactic(auto)]

ghost use Rattle.std.specs.Prelude.{◌≡◌, ◌+◌, ◌-◌, ◌≤◌, ◌<◌, length, take, drop};
ghost use Rattle.rules.specs.Records.{held};
ghost use Rattle.rules.specs.Refusals.{most_slots};
ghost use Rattle.rules.specs.Slots.{lay, list_of};
ghost use Rattle.queue.specs.Answers.{Fits, rec_of};

use places::WrappedIndex;
use queue::Deque;

// Copies the `n` elements that stand from `first` on, past the last slot, into other slots from `dst` on: the front
// run, and behind it the back run.
#[tactic(auto, using(crate::proofs::Copied::apart))]
fn copy_runs_apart(
    slots: &mut [u32],
    dst: WrappedIndex,
    from: &[u32],
    first: WrappedIndex,
    n: usize,
)
    requires first_in_bounds { (first.0 < length from.now) × (length from.now - first.0 < n) × (n ≤ length from.now) }
    requires dst_in_bounds { (dst.0 < length slots.old) × (n ≤ length slots.old) × (length slots.old ≤ most_slots) }
    ensures { slots.new ≡ lay slots.old dst.0 (list_of from.now first.0 n) }
{
    //        . .         F .
    // from  [C D _ _ _ _ A B]
    // slots [_ _ _ A B C D _ _]
    //              D . . .
    //
    let at = first.as_index();
    let front = from.len() - at;
    let behind = places::wrap_add(slots.len(), dst, front);
    copies::copy_slice(slots, dst, &from[at..]);
    copies::copy_slice(slots, behind, &from[..n - front]);
}

// Copies the `n` elements from position `start` on of the queue `q`, whose slots are `from`, into other slots from
// `dst` on.
#[tactic(auto, using(crate::proofs::Copied::range))]
pub fn copy_range(
    slots: &mut [u32],
    dst: WrappedIndex,
    from: &[u32],
    q: Deque,
    start: usize,
    n: usize,
)
    requires range_in_queue { Fits (length from.now) q × (start + n ≤ q.len) }
    requires dst_in_bounds { (dst.0 ≤ length slots.old - 1) × (n ≤ length slots.old) × (length slots.old ≤ most_slots) }
    ensures { slots.new
        ≡ lay slots.old dst.0 (take n (drop start (held from.now (rec_of q)))) }
{
    // there may be no slot to copy to
    if n == 0 {
        return;
    }
    let first = places::wrap_add(from.len(), q.head, start);
    let at = first.as_index();
    if n <= from.len() - at {
        copies::copy_slice(slots, dst, &from[at..at + n]);
    } else {
        copy_runs_apart(slots, dst, from, first, n);
    }
}

// Some elements of a queue at a time, behind those of another queue.
ghost use Rattle.std.specs.Prelude.{◌≡◌, ◌+◌, ◌≤◌, min, OnOk, IfOk};
ghost use Rattle.rules.specs.Pairs.{told_pair};
ghost use Rattle.rules.specs.Regions.{on_portion, do_portion};
ghost use Rattle.queue.specs.Answers.{Fits, rec_of, number_in};
ghost use Rattle.queue.specs.Pairs.{of_joined};

use queue::{Change, Deque, Pair, Refusal};

// How many elements a portion of `n` has, which may be any number, once the tests of `move_portion` are passed, in
// their order: the old queue's, the new one's, whose mark is not asked, then whether the portion fits behind the new
// one's elements.
#[tactic(auto, using(crate::proofs::Asks::asks), unfolding(rules::specs::Regions::on_portion))]
fn checked_portion(
    cap: usize,
    q: Deque,
    n: usize,
    target_cap: usize,
    other: Deque,
) -> Result<usize, Refusal>
    ensures number { number_in result ≡ on_portion cap (rec_of q) target_cap (rec_of other) n }
    ensures fits { OnOk result (Fits cap q × Fits target_cap other × (other.len + min n q.len ≤ target_cap)) }
    ensures portion { IfOk result (λ k. k ≡ min n q.len) }
{
    queue::check_change(cap, q)?;
    queue::check(target_cap, other)?;
    let portion = n.min(q.len);
    if portion > target_cap - other.len {
        return Err(Refusal::Room);
    }
    Ok(portion)
}

// Moves the first `n` elements, or all if there are fewer, from the old queue behind the new one's. The new one's mark
// is set while the old one is left with elements.
#[tactic(auto, using(crate::proofs::Moves::portions))]
pub fn move_portion(
    slots: &[u32],
    q: Deque,
    n: usize,
    target: &mut [u32],
    other: Deque,
) -> Result<Change<Pair>, Refusal>
    ensures { (of_joined q other result, slots.now, target.new)
        ≡ told_pair (do_portion slots.now (rec_of q) target.old (rec_of other) n) }
{
    let cap = slots.len();
    let target_cap = target.len();
    let portion = checked_portion(cap, q, n, target_cap, other)?;
    // a portion of 3
    //
    //         . .         H .
    // slots  [C D _ _ _ _ A B]
    //           H
    // target [_ _ _ X Y _ _ _ _ _ _ _]
    // target [_ _ _ X Y A B C _ _ _ _]
    //               H . . . .
    //
    let left = q.len - portion;
    let first = places::wrap_add(cap, q.head, portion);
    let behind = places::wrap_add(target_cap, other.head, other.len);
    crossings::copy_range(target, behind, slots, q, 0, portion);
    let grown = queue::stepped(other, other.head, other.len + portion);
    Ok(Change {
        after: Pair {
            queue: queue::stepped(q, queue::head_over(first, left), left),
            other: queue::with_mark(grown, portion < q.len),
        },
        moved: portion,
    })
}

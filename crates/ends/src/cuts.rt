// The calls that cut elements off. They only read: what is cut off stays in its slot.
ghost use Rattle.std.specs.Prelude.{◌≡◌};
ghost use Rattle.rules.specs.Ends.{truncate, truncate_front, clear};
ghost use Rattle.rules.specs.Outcome.{told, do_rule};
ghost use Rattle.queue.specs.Answers.{rec_of, of_change};

use places::WrappedIndex;
use queue::{Change, Deque, Refusal};

// Keeps the first n.
pub fn truncate(slots: &[u32], q: Deque, n: usize) -> Result<Change<Deque>, Refusal>
    ensures { (of_change q result, slots.now) ≡ told (do_rule slots.now (rec_of q) (truncate n)) }
{
    queue::check_change(slots.len(), q)?;
    if n >= q.len {
        return Ok(Change { after: q, moved: 0 });
    }
    Ok(Change {
        after: queue::stepped(q, q.head, n),
        moved: 0,
    })
}

// Keeps the last n.
pub fn truncate_front(slots: &[u32], q: Deque, n: usize) -> Result<Change<Deque>, Refusal>
    ensures { (of_change q result, slots.now) ≡ told (do_rule slots.now (rec_of q) (truncate_front n)) }
{
    let cap = slots.len();
    queue::check_change(cap, q)?;
    let len = q.len;
    if n >= len {
        return Ok(Change { after: q, moved: 0 });
    }
    let head = places::wrap_add(cap, q.head, len - n);
    Ok(Change {
        after: queue::stepped(q, head, n),
        moved: 0,
    })
}

// Keeps none, and starts anew at the first slot.
pub fn clear(slots: &[u32], q: Deque) -> Result<Change<Deque>, Refusal>
    ensures { (of_change q result, slots.now) ≡ told (do_rule slots.now (rec_of q) clear) }
{
    queue::check_change(slots.len(), q)?;
    Ok(Change {
        after: queue::stepped(q, WrappedIndex::zero(), 0),
        moved: 0,
    })
}

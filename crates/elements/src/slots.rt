// The reading of one element, and a record for lent slots.
ghost use Rattle.std.specs.Prelude.{◌≡◌, ◌<◌, length, get_or};
ghost use Rattle.rules.specs.Makes.{told_make, fresh};
ghost use Rattle.rules.specs.Records.{held};
ghost use Rattle.rules.specs.Refusals.{on_queue};
ghost use Rattle.queue.specs.Answers.{rec_of, of_made};

use queue::{Change, Deque, Refusal};

// The element at position i, which there is.
pub fn element(slots: &[u32], q: Deque, i: usize) -> u32
    requires { (on_queue (length slots.now) (rec_of q) 0 ≡ 0) × (i < q.len) }
    ensures { result ≡ get_or (held slots.now (rec_of q)) i 0 }
{
    let at = places::wrap_add(slots.len(), q.head, i);
    let p = at.as_index();
    slots[p]
}

// A record over no element, for slots that the caller lends.
pub fn fresh(slots: &[u32]) -> Result<Change<Deque>, Refusal>
    ensures { (of_made result, slots.now) ≡ told_make (fresh slots.now) }
{
    if slots.len() > rules::most_slots() {
        return Err(Refusal::Slots);
    }
    Ok(Change {
        after: queue::new_record(0),
        moved: 0,
    })
}

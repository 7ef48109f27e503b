// The calls that look at one element.
ghost use Rattle.std.specs.Prelude.{◌≡◌};
ghost use Rattle.rules.specs.Looks.{look_at, at_position, at_back};
ghost use Rattle.queue.specs.Answers.{rec_of};
ghost use Rattle.queue.specs.Looks.{look_of};
ghost use Rattle.elements.specs.Answers.{given};

use queue::{Deque, Refusal};

// The element at position i.
pub fn get(slots: &[u32], q: Deque, i: usize) -> Result<Option<u32>, Refusal>
    ensures { look_of given result ≡ look_at slots.now (rec_of q) (at_position i) }
{
    let cap = slots.len();
    queue::check(cap, q)?;
    if i < q.len {
        let at = places::wrap_add(cap, q.head, i).as_index();
        return Ok(Some(slots[at]));
    }
    Ok(None)
}

// The first element.
pub fn front(slots: &[u32], q: Deque) -> Result<Option<u32>, Refusal>
    ensures { look_of given result ≡ look_at slots.now (rec_of q) (at_position 0) }
{
    get(slots, q, 0)
}

// The last element: position len - 1, which on an empty queue wraps to the largest number, where nothing stands.
pub fn back(slots: &[u32], q: Deque) -> Result<Option<u32>, Refusal>
    ensures { look_of given result ≡ look_at slots.now (rec_of q) at_back }
{
    get(slots, q, q.len.wrapping_sub(1))
}

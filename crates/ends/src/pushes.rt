// The calls that add an element at an end.
ghost use Rattle.std.specs.Prelude.{◌≡◌};
ghost use Rattle.rules.specs.Ends.{push_back, push_front};
ghost use Rattle.rules.specs.Outcome.{told, do_rule};
ghost use Rattle.queue.specs.Answers.{rec_of, of_change};

use queue::{Change, Deque, Refusal};

// Appends v.
pub fn push_back(slots: &mut [u32], q: Deque, v: u32) -> Result<Change<Deque>, Refusal>
    ensures { (of_change q result, slots.new) ≡ told (do_rule slots.old (rec_of q) (push_back v)) }
{
    let cap = slots.len();
    queue::check_change(cap, q)?;
    let len = q.len;
    if len < cap {
        let behind = places::wrap_add(cap, q.head, len).as_index();
        slots[behind] = v;
        return Ok(Change {
            after: queue::stepped(q, q.head, len + 1),
            moved: 0,
        });
    }
    Err(Refusal::Room)
}

// Puts v in front.
pub fn push_front(slots: &mut [u32], q: Deque, v: u32) -> Result<Change<Deque>, Refusal>
    ensures { (of_change q result, slots.new) ≡ told (do_rule slots.old (rec_of q) (push_front v)) }
{
    let cap = slots.len();
    queue::check_change(cap, q)?;
    if q.len < cap {
        let first = places::wrap_sub(cap, q.head, 1);
        slots[first.as_index()] = v;
        return Ok(Change {
            after: queue::stepped(q, first, q.len + 1),
            moved: 0,
        });
    }
    Err(Refusal::Room)
}

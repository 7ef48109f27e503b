// Splice: elements of a lent slice replace a range of a queue.
#![tactic(auto)]

ghost use Rattle.std.specs.Prelude.{◌≡◌, ◌+◌, ◌-◌, ◌≤◌, length};
ghost use Rattle.rules.specs.Outcome.{told, do_rule};
ghost use Rattle.rules.specs.Places.{place};
ghost use Rattle.rules.specs.Refusals.{most_slots};
ghost use Rattle.rules.specs.Slots.{lay};
ghost use Rattle.rules.specs.Splice.{splice};
ghost use Rattle.queue.specs.Answers.{Fits, rec_of, of_change};
ghost use Rattle.splices.specs.Rooms.{SpliceMade};

use holes::{Hole, Settled};
use places::WrappedIndex;
use queue::{Change, Deque, Refusal};

// Makes room for `new` elements in the place of those from position `start` up to `end`: what has to move moves.
fn make_room(slots: &mut [u32], q: Deque, start: usize, end: usize, new: usize) -> Settled
    requires fits { Fits (length slots.old) q }
    requires within { (start ≤ end) × (end ≤ q.len) × (start + new + (q.len - end) ≤ length slots.old) }
    ensures { SpliceMade slots.old slots.new q.head.0 start (end - start) new (q.len - end)
        result.head.0 result.moved }
{
    let drained = end - start;
    let tail = q.len - end;
    if new > drained {
        // H = head, h = the first elements, d = the drained ones, n = room for the new ones, t = the tail
        //     H
        // [ . h h d d t t t . . . . . . ]
        //     H
        // [ . h h n n n n t t t . . . . ]
        holes::move_elements(slots, q.head, start + drained, start + new, tail);
        return Settled {
            head: q.head,
            moved: tail,
        };
    }
    let hole = Hole {
        head: q.head,
        start,
        new,
        len: drained - new,
        tail,
    };
    holes::close_hole(slots, hole)
}

// Lays the values behind the first `start` elements.
fn fill(slots: &mut [u32], head: WrappedIndex, start: usize, values: &[u32])
    requires { (head.0 ≤ length slots.old - 1) × (start + length values.now ≤ length slots.old)
        × (length slots.old ≤ most_slots) }
    ensures { slots.new
        ≡ lay slots.old (place (length slots.old) head.0 start) values.now }
{
    if values.is_empty() {
        return;
    }
    let at = places::wrap_add(slots.len(), head, start);
    copies::copy_slice(slots, at, values);
}

// Replaces the elements from position `start` up to `end` by the values, which may be more or fewer.
pub fn splice(
    slots: &mut [u32],
    q: Deque,
    start: usize,
    end: usize,
    values: &[u32],
) -> Result<Change<Deque>, Refusal>
    ensures { (of_change q result, slots.new)
        ≡ told (do_rule slots.old (rec_of q) (splice start end values.now)) }
{
    let cap = slots.len();
    queue::check_change(cap, q)?;
    queue::check_range(q.len, start, end)?;
    let new = values.len();
    let tail = q.len - end;
    if new > cap - start - tail {
        return Err(Refusal::Room);
    }
    let settled = make_room(slots, q, start, end, new);
    fill(slots, settled.head, start, values);
    let len = start + new + tail;
    Ok(Change {
        after: queue::stepped(q, queue::head_over(settled.head, len), len),
        moved: settled.moved,
    })
}

// `insert`: the shorter side makes room for an element. H is the head before, above, and after, below.
ghost use Rattle.std.specs.Prelude.{◌≡◌, ◌≤◌, ◌<◌, length};
ghost use Rattle.rules.specs.Middle.{inserted, insert_at};
ghost use Rattle.rules.specs.Outcome.{told, do_rule};
ghost use Rattle.rules.specs.Places.{step_back};
ghost use Rattle.rules.specs.Records.{held};
ghost use Rattle.rules.specs.Slots.{lay};
ghost use Rattle.queue.specs.Answers.{Fits, rec_of, of_change};

use places::WrappedIndex;
use queue::{Change, Deque, Refusal};

// Makes room at index by moving the elements from there on, and stores v.
fn insert_later(slots: &mut [u32], q: Deque, index: usize, v: u32)
    requires { Fits (length slots.old) q × (index ≤ q.len) × (q.len < length slots.old) }
    ensures { slots.new ≡ lay slots.old q.head.0 (inserted (held slots.old (rec_of q)) index v) }
{
    // V in front of E: E and F move
    //
    //            H
    // 1 [F _ _ _ A B C D E]
    // 2 [E F _ _ A B C D E]
    // 3 [E F _ _ A B C D V]
    //            H
    //
    let cap = slots.len();
    let at = places::wrap_add(cap, q.head, index);
    let behind = places::wrap_add(cap, q.head, index + 1);
    copies::wrap_copy(slots, at, behind, q.len - index);
    slots[at.as_index()] = v;
}

// Makes room at index by moving the elements before it to a head one step back, stores v, and answers that head.
fn insert_earlier(slots: &mut [u32], q: Deque, index: usize, v: u32) -> WrappedIndex
    requires { Fits (length slots.old) q × (index ≤ q.len) × (q.len < length slots.old) }
    ensures head { result.0 ≡ step_back (length slots.old) q.head.0 1 }
    ensures slots_after { slots.new ≡ lay slots.old result.0 (inserted (held slots.old (rec_of q)) index v) }
{
    // V in front of C: A and B move
    //
    //            H
    // 1 [F _ _ _ A B C D E]
    // 2 [F _ _ A B B C D E]
    // 3 [F _ _ A B V C D E]
    //          H
    //
    let cap = slots.len();
    let head = places::wrap_sub(cap, q.head, 1);
    copies::wrap_copy(slots, q.head, head, index);
    let at = places::wrap_add(cap, head, index);
    slots[at.as_index()] = v;
    head
}

// Puts v at position index.
pub fn insert(slots: &mut [u32], q: Deque, index: usize, v: u32) -> Result<Change<Deque>, Refusal>
    ensures { (of_change q result, slots.new) ≡ told (do_rule slots.old (rec_of q) (insert_at index v)) }
{
    let cap = slots.len();
    queue::check_change(cap, q)?;
    if index > q.len {
        return Err(Refusal::Position);
    }
    if q.len == cap {
        return Err(Refusal::Room);
    }
    let later = q.len - index;
    if later < index {
        insert_later(slots, q, index, v);
        return Ok(Change {
            after: queue::stepped(q, q.head, q.len + 1),
            moved: later,
        });
    }
    let head = insert_earlier(slots, q, index, v);
    Ok(Change {
        after: queue::stepped(q, head, q.len + 1),
        moved: index,
    })
}

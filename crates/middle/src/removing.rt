// `remove`: the shorter side closes the gap of an element. H is the head before, above, and after, below.
ghost use Rattle.std.specs.Prelude.{◌≡◌, ◌<◌, length};
ghost use Rattle.rules.specs.Middle.{without, remove_at};
ghost use Rattle.rules.specs.Outcome.{told, do_rule};
ghost use Rattle.rules.specs.Places.{place};
ghost use Rattle.rules.specs.Records.{held};
ghost use Rattle.rules.specs.Slots.{lay};
ghost use Rattle.queue.specs.Answers.{Fits, rec_of};
ghost use Rattle.elements.specs.Answers.{of_handed};

use elements::Handed;
use places::WrappedIndex;
use queue::{Deque, Refusal};

// Closes the gap at index by moving the elements behind it.
fn remove_later(slots: &mut [u32], q: Deque, index: usize)
    requires { Fits (length slots.old) q × (index < q.len) }
    ensures { slots.new ≡ lay slots.old q.head.0 (without (held slots.old (rec_of q)) index) }
{
    // D is handed over: E and F move
    //
    //            H
    // 1 [F _ _ _ A B C D E]
    // 2 [F _ _ _ A B C E F]
    //            H
    //
    let cap = slots.len();
    let at = places::wrap_add(cap, q.head, index);
    let behind = places::wrap_add(cap, q.head, index + 1);
    copies::wrap_copy(slots, behind, at, q.len - index - 1);
}

// Closes the gap at index by moving the elements before it to a head one step on, and answers that head.
fn remove_earlier(slots: &mut [u32], q: Deque, index: usize) -> WrappedIndex
    requires { Fits (length slots.old) q × (index < q.len) }
    ensures head { result.0 ≡ place (length slots.old) q.head.0 1 }
    ensures slots_after { slots.new ≡ lay slots.old result.0 (without (held slots.old (rec_of q)) index) }
{
    // C is handed over: A and B move
    //
    //            H
    // 1 [F _ _ _ A B C D E]
    // 2 [F _ _ _ A A B D E]
    //              H
    //
    let head = places::next(slots.len(), q.head);
    copies::wrap_copy(slots, q.head, head, index);
    head
}

// Hands the element at position index over.
pub fn remove(slots: &mut [u32], q: Deque, index: usize) -> Result<Handed<Deque>, Refusal>
    ensures { (of_handed q result, slots.new) ≡ told (do_rule slots.old (rec_of q) (remove_at index)) }
{
    queue::check_change(slots.len(), q)?;
    if index >= q.len {
        return Ok(Handed {
            number: None,
            after: q,
            moved: 0,
        });
    }
    let number = Some(elements::element(slots, q, index));
    let later = q.len - index - 1;
    if later < index {
        remove_later(slots, q, index);
        return Ok(Handed {
            number,
            after: queue::stepped(q, q.head, q.len - 1),
            moved: later,
        });
    }
    let head = remove_earlier(slots, q, index);
    Ok(Handed {
        number,
        after: queue::stepped(q, head, q.len - 1),
        moved: index,
    })
}

// The calls that exchange elements, and those that fill a gap from an end.
#![tactic(auto)]

ghost use Rattle.std.specs.Prelude.{◌≡◌, ◌<◌, length, get_or, set};
ghost use Rattle.rules.specs.Ends.{exchange, swap_remove_front, swap_remove_back};
ghost use Rattle.rules.specs.Outcome.{told, do_rule};
ghost use Rattle.queue.specs.Answers.{rec_of, of_change};
ghost use Rattle.elements.specs.Answers.{of_handed};

use elements::Handed;
use ends::{pop_back, pop_front};
use places::WrappedIndex;
use queue::{Change, Deque, Refusal};

// Hands over what stands at `at`, and stores there what stands at `from`, which keeps its value.
fn fill(slots: &mut [u32], at: WrappedIndex, from: WrappedIndex) -> u32
    requires { (at.0 < length slots.old) × (from.0 < length slots.old) }
    ensures gone { result ≡ get_or slots.old at.0 0 }
    ensures filled { slots.new ≡ set slots.old at.0 (get_or slots.old from.0 0) }
{
    let coming = slots[from.as_index()];
    std::mem::replace(&mut slots[at.as_index()], coming)
}

// Exchanges the elements at positions i and j.
pub fn swap(slots: &mut [u32], q: Deque, i: usize, j: usize) -> Result<Change<Deque>, Refusal>
    ensures { (of_change q result, slots.new) ≡ told (do_rule slots.old (rec_of q) (exchange i j)) }
{
    let cap = slots.len();
    queue::check_change(cap, q)?;
    if i >= q.len || j >= q.len {
        return Err(Refusal::Position);
    }
    if i == j {
        return Ok(Change { after: q, moved: 0 });
    }
    let at_i = places::wrap_add(cap, q.head, i);
    let at_j = places::wrap_add(cap, q.head, j);
    // Stays: two stores, since the library's `swap` asks which place is the lower: where that can't be foreseen it
    // takes twice as long.
    let number = fill(slots, at_i, at_j);
    slots[at_j.as_index()] = number;
    Ok(Change { after: q, moved: 2 })
}

// Hands the element at position index over, and puts the first one in its place.
pub fn swap_remove_front(
    slots: &mut [u32],
    q: Deque,
    index: usize,
) -> Result<Handed<Deque>, Refusal>
    ensures { (of_handed q result, slots.new) ≡ told (do_rule slots.old (rec_of q) (swap_remove_front index)) }
{
    let cap = slots.len();
    queue::check_change(cap, q)?;
    if index >= q.len {
        return Ok(Handed {
            number: None,
            after: q,
            moved: 0,
        });
    }
    if index == 0 {
        return pop_front(slots, q);
    }
    let at = places::wrap_add(cap, q.head, index);
    let number = fill(slots, at, q.head);
    let next = places::wrap_add(cap, q.head, 1);
    Ok(Handed {
        number: Some(number),
        after: queue::stepped(q, next, q.len - 1),
        moved: 1,
    })
}

// Hands the element at position index over, and puts the last one in its place.
pub fn swap_remove_back(slots: &mut [u32], q: Deque, index: usize) -> Result<Handed<Deque>, Refusal>
    ensures { (of_handed q result, slots.new) ≡ told (do_rule slots.old (rec_of q) (swap_remove_back index)) }
{
    let cap = slots.len();
    queue::check_change(cap, q)?;
    let len = q.len;
    if index >= len {
        return Ok(Handed {
            number: None,
            after: q,
            moved: 0,
        });
    }
    if index == len - 1 {
        return pop_back(slots, q);
    }
    let at = places::wrap_add(cap, q.head, index);
    let last = places::wrap_add(cap, q.head, len - 1);
    let number = fill(slots, at, last);
    Ok(Handed {
        number: Some(number),
        after: queue::stepped(q, q.head, len - 1),
        moved: 1,
    })
}

// The calls that hand the element at an end over. They only read: what a pop takes out stays in its slot.
ghost use Rattle.std.specs.Prelude.{◌≡◌};
ghost use Rattle.rules.specs.Ends.{pop_front, pop_back, pop_front_if, pop_back_if};
ghost use Rattle.rules.specs.Outcome.{told, do_rule};
ghost use Rattle.queue.specs.Answers.{rec_of};
ghost use Rattle.elements.specs.Answers.{of_handed};
ghost use Rattle.conditions.specs.Tests.{test_of};
ghost use Rattle.ends.specs.Conditional.{nothing, only_if};

use conditions::Test;
use elements::Handed;
use queue::{Deque, Refusal};

// Nothing is handed over, and `q` stands as it did.
fn nothing(q: Deque) -> Handed<Deque>
    ensures { result ≡ nothing q }
{
    Handed {
        number: None,
        after: q,
        moved: 0,
    }
}

// Hands the first element over.
pub fn pop_front(slots: &[u32], q: Deque) -> Result<Handed<Deque>, Refusal>
    ensures { (of_handed q result, slots.now) ≡ told (do_rule slots.now (rec_of q) pop_front) }
{
    let cap = slots.len();
    // asked of an empty queue, too: a refusal comes before Nothing
    queue::check_change(cap, q)?;
    if q.len > 0 {
        let first = q.head.as_index();
        let next = places::next(cap, q.head);
        return Ok(Handed {
            number: Some(slots[first]),
            after: queue::stepped(q, next, q.len - 1),
            moved: 0,
        });
    }
    Ok(nothing(q))
}

// Hands the last element over.
pub fn pop_back(slots: &[u32], q: Deque) -> Result<Handed<Deque>, Refusal>
    ensures { (of_handed q result, slots.now) ≡ told (do_rule slots.now (rec_of q) pop_back) }
{
    let cap = slots.len();
    queue::check_change(cap, q)?;
    if q.len > 0 {
        let last = places::wrap_add(cap, q.head, q.len - 1).as_index();
        return Ok(Handed {
            number: Some(slots[last]),
            after: queue::stepped(q, q.head, q.len - 1),
            moved: 0,
        });
    }
    Ok(nothing(q))
}

// What a pop handed over, if that meets the test; else nothing, and `q` stands as it did, since a pop only reads.
fn only_if(test: Test, q: Deque, popped: Handed<Deque>) -> Handed<Deque>
    ensures { result ≡ only_if (test_of test) q popped }
{
    match popped.number {
        Some(number) if conditions::meets(test, number) => popped,
        _ => nothing(q),
    }
}

// Hands the first element over, if it meets the test.
pub fn pop_front_if(slots: &[u32], q: Deque, test: Test) -> Result<Handed<Deque>, Refusal>
    ensures { (of_handed q result, slots.now) ≡ told (do_rule slots.now (rec_of q) (pop_front_if (test_of test))) }
{
    let popped = pop_front(slots, q)?;
    Ok(only_if(test, q, popped))
}

// Hands the last element over, if it meets the test.
pub fn pop_back_if(slots: &[u32], q: Deque, test: Test) -> Result<Handed<Deque>, Refusal>
    ensures { (of_handed q result, slots.now) ≡ told (do_rule slots.now (rec_of q) (pop_back_if (test_of test))) }
{
    let popped = pop_back(slots, q)?;
    Ok(only_if(test, q, popped))
}

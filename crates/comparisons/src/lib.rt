// What speaks of the lists only: contains, equality and lexicographic order.
#![tactic(auto)]

mod in_runs; // in_runs.rt: the same of lists in two runs, of which no queue is known

ghost use Rattle.std.specs.Prelude.{◌≡◌};
ghost use Rattle.rules.specs.Looks.{look_at, look_at_both, has, same, order};
ghost use Rattle.queue.specs.Answers.{rec_of};
ghost use Rattle.queue.specs.Looks.{look_of, seen, order_of};
ghost use Rattle.comparisons.specs.Lists.{both, both_listed};

pub use in_runs::{order_runs, same_runs, stands_in};
use queue::{Deque, Refusal};
use runs::TwoRuns;
use std::cmp::Ordering;

// Whether x stands in the queue.
pub fn contains(slots: &[u32], q: Deque, x: u32) -> Result<bool, Refusal>
    ensures { seen result ≡ look_at slots.now (rec_of q) (has x) }
{
    let cap = slots.len();
    queue::check(cap, q)?;
    let list = runs::whole_runs(slots, q);
    Ok(stands_in(list, x))
}

// The lists of both queues, each in its runs, past the tests of the queue called on and then of the second.
fn both_lists<'a>(
    slots: &'a [u32],
    q: Deque,
    other_slots: &'a [u32],
    other: Deque,
) -> Result<(TwoRuns<'a>, TwoRuns<'a>), Refusal>
    ensures { look_of both_listed result ≡ look_at_both slots.now (rec_of q) other_slots.now (rec_of other) both }
{
    queue::check(slots.len(), q)?;
    queue::check(other_slots.len(), other)?;
    let ours = runs::whole_runs(slots, q);
    let theirs = runs::whole_runs(other_slots, other);
    Ok((ours, theirs))
}

// Whether the two queues hold the same list.
pub fn eq(slots: &[u32], q: Deque, other_slots: &[u32], other: Deque) -> Result<bool, Refusal>
    ensures { seen result ≡ look_at_both slots.now (rec_of q) other_slots.now (rec_of other) same }
{
    let (ours, theirs) = both_lists(slots, q, other_slots, other)?;
    Ok(same_runs(ours, theirs))
}

// How the list of the queue stands to that of the other in lexicographic order.
pub fn cmp(slots: &[u32], q: Deque, other_slots: &[u32], other: Deque) -> Result<Ordering, Refusal>
    ensures { look_of order_of result ≡ look_at_both slots.now (rec_of q) other_slots.now (rec_of other) order }
{
    let (ours, theirs) = both_lists(slots, q, other_slots, other)?;
    Ok(order_runs(ours, theirs))
}

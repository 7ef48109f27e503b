// A lent slice behind a queue's elements or in front of them, and copies of one number behind them.
#![tactic(auto)]

ghost use Rattle.std.specs.Prelude.{◌≡◌, ◌+◌, ◌≤◌, ◌<◌, OnOk};
ghost use Rattle.rules.specs.Joins.{extend_with, prepend, extend_front, resize};
ghost use Rattle.rules.specs.Outcome.{told, do_rule};
ghost use Rattle.rules.specs.Places.{step_back};
ghost use Rattle.rules.specs.Records.{stepped};
ghost use Rattle.rules.specs.Refusals.{on_change, room};
ghost use Rattle.queue.specs.Answers.{Fits, rec_of, number_in, of_change};

use queue::{Change, Deque, Refusal};

// The tests of a call that adds `n` elements, in their order. A lent slice may be of
// any length, so its own is held to a difference: no sum can pass the largest number.
#[tactic(auto, using(crate::proofs::Asks::asks))]
fn check_more(cap: usize, q: Deque, n: usize) -> Result<(), Refusal>
    ensures number { number_in result ≡ on_change cap (rec_of q) (room cap (q.len + n)) }
    ensures fits { OnOk result (Fits cap q × (q.len + n ≤ cap)) }
{
    queue::check_change(cap, q)?;
    if n > cap - q.len {
        return Err(Refusal::Room);
    }
    Ok(())
}

// The record of a queue that gets `n` elements in front.
#[tactic(auto, unfolding(rules::specs::Records::stepped))]
fn stepped_back(cap: usize, q: Deque, n: usize) -> Deque
    requires { Fits cap q × (q.len + n ≤ cap) }
    ensures back { rec_of result ≡ stepped (rec_of q) (step_back cap q.head.0 n) (q.len + n) }
    ensures in_ring { q.head.0 < cap → result.head.0 < cap }
{
    queue::stepped(q, places::wrap_sub(cap, q.head, n), q.len + n)
}

// Appends the values.
#[tactic(auto, using(crate::proofs::Adds::extends))]
pub fn extend(slots: &mut [u32], q: Deque, values: &[u32]) -> Result<Change<Deque>, Refusal>
    ensures { (of_change q result, slots.new)
        ≡ told (do_rule slots.old (rec_of q) (extend_with values.now)) }
{
    let cap = slots.len();
    check_more(cap, q, values.len())?;
    let after = queue::stepped(q, q.head, q.len + values.len());
    // with nothing to copy there may be no slot either
    if !values.is_empty() {
        copies::copy_slice(slots, places::wrap_add(cap, q.head, q.len), values);
    }
    Ok(Change { after, moved: 0 })
}

// Puts the values in front, in their order.
#[tactic(auto, using(crate::proofs::Adds::prepends))]
pub fn prepend(slots: &mut [u32], q: Deque, values: &[u32]) -> Result<Change<Deque>, Refusal>
    ensures { (of_change q result, slots.new)
        ≡ told (do_rule slots.old (rec_of q) (prepend values.now)) }
{
    let cap = slots.len();
    check_more(cap, q, values.len())?;
    let after = stepped_back(cap, q, values.len());
    if !values.is_empty() {
        copies::copy_slice(slots, after.head, values);
    }
    Ok(Change { after, moved: 0 })
}

// Puts the values in front, the last of them first.
#[tactic(auto, using(crate::proofs::Adds::fronts))]
pub fn extend_front(slots: &mut [u32], q: Deque, values: &[u32]) -> Result<Change<Deque>, Refusal>
    ensures { (of_change q result, slots.new)
        ≡ told (do_rule slots.old (rec_of q) (extend_front values.now)) }
{
    let cap = slots.len();
    check_more(cap, q, values.len())?;
    let after = stepped_back(cap, q, values.len());
    if !values.is_empty() {
        copies::copy_slice_reversed(slots, after.head, values);
    }
    Ok(Change { after, moved: 0 })
}

// Truncates to the first `n` elements, or appends copies of `v` up to `n`.
#[tactic(auto, using(crate::proofs::Adds::resizes))]
pub fn resize(slots: &mut [u32], q: Deque, n: usize, v: u32) -> Result<Change<Deque>, Refusal>
    ensures { (of_change q result, slots.new) ≡ told (do_rule slots.old (rec_of q) (resize n v)) }
{
    let cap = slots.len();
    queue::check_change(cap, q)?;
    if n > cap {
        return Err(Refusal::Room);
    }
    let after = queue::stepped(q, q.head, n);
    if n > q.len {
        copies::fill_slots(slots, places::wrap_add(cap, q.head, q.len), n - q.len, v);
    }
    Ok(Change { after, moved: 0 })
}

// The refusals, and the tests that calls ask first.
ghost use Rattle.std.specs.Prelude.{true, ◌≡◌, ◌≤◌, OnOk};
ghost use Rattle.rules.specs.Drains.{good_drain, on_drain};
ghost use Rattle.rules.specs.Refusals.{good_head, good_rec, in_range, on_change, on_queue};
ghost use Rattle.rules.specs.Walks.{on_walk};
ghost use Rattle.queue.specs.Answers.{Fits, rec_of, number_of, number_in};
ghost use Rattle.queue.specs.Drains.{DrainFits, drain_of};
ghost use Rattle.queue.specs.Looks.{walk_of};

use super::records::{Deque, Drain, Walk};

// Why a call is refused, by its number from 1 on: too many slots, a record that is not good,
// a position past the end, no room, bytes that are no image, a move into the queue that is open.
#[derive(Clone, Copy, Debug, PartialEq, Eq)]
pub enum Refusal {
    Slots,
    Record,
    Position,
    Room,
    Image,
    Open,
}

impl Refusal {
    // Its number.
    #[tactic(auto, unfolding(crate::specs::Answers::number_of))]
    pub fn number(self) -> u16
        ensures { result ≡ number_of self }
    {
        match self {
            Refusal::Slots => 1,
            Refusal::Record => 2,
            Refusal::Position => 3,
            Refusal::Room => 4,
            Refusal::Image => 5,
            Refusal::Open => 6,
        }
    }
}

// Whether the record is good for so many slots.
fn good_record(cap: usize, q: Deque) -> bool
    ensures { result ≡ good_rec cap (rec_of q) }
{
    let head = q.head;
    let h = head.as_index();
    // the common case, by two tests alone
    if h < cap {
        return q.len <= cap;
    }
    // no slot at all
    if cap == 0 {
        if h == 0 {
            return q.len <= cap;
        }
    }
    false
}

// The tests of slots and record, in their order.
pub fn check(cap: usize, q: Deque) -> Result<(), Refusal>
    ensures number { number_in result ≡ on_queue cap (rec_of q) 0 }
    ensures fits { OnOk result (Fits cap q) }
{
    if cap <= rules::most_slots() {
        if good_record(cap, q) {
            return Ok(());
        }
        return Err(Refusal::Record);
    }
    Err(Refusal::Slots)
}

// The tests that a call of a kind that can change the queue asks first: slots, record, and whether a move into it is
// open. One that only looks asks `check`. A marked queue is asked apart: where its mark was asked behind the record, the
// compiler made one condition of both, and every push and pop was slower for it.
pub fn check_change(cap: usize, q: Deque) -> Result<(), Refusal>
    ensures number { number_in result ≡ on_change cap (rec_of q) 0 }
    ensures fits { OnOk result (Fits cap q) }
{
    if q.mark {
        check(cap, q)?;
        return Err(Refusal::Open);
    }
    check(cap, q)
}

// The tests of a range of the positions of `len` elements: it begins before it ends, and ends within them.
pub fn check_range(len: usize, start: usize, end: usize) -> Result<(), Refusal>
    ensures number { number_in result ≡ in_range len start end 0 }
    ensures within { OnOk result ((start ≤ end) × (end ≤ len)) }
{
    if start > end {
        return Err(Refusal::Position);
    }
    if end > len {
        return Err(Refusal::Position);
    }
    Ok(())
}

// Whether the parts of the drain's queue fit so many slots and what remains lies in the drained
// range, where the head is good. The numbers may be any: no sum is made before it is known to fit.
fn good_parts(cap: usize, d: Drain) -> bool
    requires { good_head cap d.head.0 ≡ true }
    ensures { result ≡ good_drain cap (drain_of d) }
{
    if d.start <= cap {
        let behind_start = cap - d.start;
        if d.drain_len <= behind_start {
            if d.tail_len <= behind_start - d.drain_len {
                if d.start <= d.idx {
                    let handed = d.idx - d.start;
                    if handed <= d.drain_len {
                        return d.remaining <= d.drain_len - handed;
                    }
                }
            }
        }
    }
    false
}

// Whether the drain's record is good for so many slots.
fn good_drain(cap: usize, d: Drain) -> bool
    ensures { result ≡ good_drain cap (drain_of d) }
{
    let head = d.head;
    let first = head.as_index();
    // the common case, by one test
    if first < cap {
        return good_parts(cap, d);
    }
    // no slot at all
    if cap == 0 {
        if first == 0 {
            return good_parts(cap, d);
        }
    }
    false
}

// The tests of slots and drain record, in their order.
pub fn check_drain(cap: usize, d: Drain) -> Result<(), Refusal>
    ensures number { number_in result ≡ on_drain cap (drain_of d) }
    ensures fits { OnOk result (DrainFits cap d) }
{
    if cap > rules::most_slots() {
        return Err(Refusal::Slots);
    }
    if good_drain(cap, d) {
        return Ok(());
    }
    Err(Refusal::Record)
}

// The tests of slots, record and a walk's ends, in their order.
pub fn check_walk(cap: usize, w: Walk) -> Result<(), Refusal>
    ensures number { number_in result ≡ on_walk cap (walk_of w) }
    ensures fits { OnOk result (Fits cap w.queue × (w.low ≤ w.high) × (w.high ≤ w.queue.len)) }
{
    check(cap, w.queue)?;
    if w.low > w.high {
        return Err(Refusal::Record);
    }
    if w.high > w.queue.len {
        return Err(Refusal::Record);
    }
    Ok(())
}

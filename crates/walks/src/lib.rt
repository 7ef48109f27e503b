// Walks over a queue's list, from both ends. A walk keeps the queue's record and its own two ends.
#![tactic(auto)]

mod lent; // lent.rt: a walk that borrows the slots

ghost use Rattle.std.specs.Prelude.{◌≡◌};
ghost use Rattle.rules.specs.Walks.{whole_walk, begin_walk, next_step, next_back_step};
ghost use Rattle.queue.specs.Answers.{rec_of};
ghost use Rattle.queue.specs.Looks.{look_of, walk_of};
ghost use Rattle.elements.specs.Answers.{of_step};

use elements::{Step, element};
pub use lent::{Iterator, IteratorStep, iter};
use queue::{Deque, Refusal, Walk, whole_walk};

// A walk over the whole list.
pub fn begin_walk(slots: &[u32], q: Deque) -> Result<Walk, Refusal>
    ensures { look_of walk_of result ≡ begin_walk slots.now (rec_of q) }
{
    queue::check(slots.len(), q)?;
    Ok(whole_walk(q))
}

// Gives the element at the low end, which steps on by one.
pub fn walk_next(slots: &[u32], w: Walk) -> Result<Step, Refusal>
    ensures { of_step w result ≡ next_step slots.now (walk_of w) }
{
    queue::check_walk(slots.len(), w)?;
    if w.low == w.high {
        return Ok(Step {
            number: None,
            walk: w,
        });
    }
    Ok(Step {
        number: Some(element(slots, w.queue, w.low)),
        walk: Walk {
            low: w.low + 1,
            ..w
        },
    })
}

// Gives the element before the high end, which steps back by one.
pub fn walk_next_back(slots: &[u32], w: Walk) -> Result<Step, Refusal>
    ensures { of_step w result ≡ next_back_step slots.now (walk_of w) }
{
    queue::check_walk(slots.len(), w)?;
    if w.low == w.high {
        return Ok(Step {
            number: None,
            walk: w,
        });
    }
    let last = w.high - 1;
    Ok(Step {
        number: Some(element(slots, w.queue, last)),
        walk: Walk { high: last, ..w },
    })
}

// The walk after a step of the walk `w`: refused, the same.
pub fn walk_after(w: Walk, step: Result<Step, Refusal>) -> Walk
    ensures { walk_of result ≡ (of_step w step).walk }
{
    step.map_or(w, |step| step.walk)
}

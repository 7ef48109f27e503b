// A walk that borrows the slots and keeps its own two ends: by value, step by step, or as std's own iterator.
ghost use Rattle.std.specs.Prelude.{◌≡◌, [], length};
ghost use Rattle.rules.specs.Choices.{unless};
ghost use Rattle.rules.specs.Records.{held};
ghost use Rattle.rules.specs.Refusals.{on_queue};
ghost use Rattle.rules.specs.Walks.{whole_walk, next_step, next_back_step};
ghost use Rattle.queue.specs.Answers.{rec_of};
ghost use Rattle.queue.specs.Looks.{walk_of};
ghost use Rattle.elements.specs.Answers.{of_step};
ghost use Rattle.walks.specs.Lent.{iterator_walk, iterator_step, left_over};

use super::{walk_after, walk_next, walk_next_back};
use elements::Step;
use queue::{Deque, Refusal, Walk, whole_walk};

// A walk that borrows the slots.
#[derive(Clone, Copy)]
pub struct Iterator<'a> {
    pub slots: &'a [u32],
    pub queue: Deque,
    pub low: usize,
    pub high: usize,
}

// What a step of such a walk gave, and the walk after it: refused, the same.
#[derive(Clone, Copy)]
pub struct IteratorStep<'a> {
    pub number: Result<Option<u32>, Refusal>,
    pub walk: Iterator<'a>,
}

// A borrowing walk over the whole list.
pub fn iter<'a>(slots: &'a [u32], q: Deque) -> Iterator<'a>
    ensures slots { result.slots ≡ slots.entry }
    ensures walk { iterator_walk result ≡ whole_walk (rec_of q) }
    ensures list { left_over result ≡ unless (on_queue (length slots.now) (rec_of q) 0) (held slots.now (rec_of q)) [] }
{
    lend(slots, whole_walk(q))
}

// The walk by value, with the slots that it borrows.
fn lend<'a>(slots: &'a [u32], w: Walk) -> Iterator<'a>
    ensures slots { result.slots ≡ slots.entry }
    ensures walk { iterator_walk result ≡ walk_of w }
{
    let Walk { queue, low, high } = w;
    Iterator {
        slots,
        queue,
        low,
        high,
    }
}

// A step of the walk `w`, with the slots.
fn lend_step<'a>(slots: &'a [u32], w: Walk, step: Result<Step, Refusal>) -> IteratorStep<'a>
    ensures slots { result.walk.slots ≡ slots.entry }
    ensures step { iterator_step result ≡ of_step w step }
{
    IteratorStep {
        number: step.map(|step| step.number),
        walk: lend(slots, walk_after(w, step)),
    }
}

impl<'a> Iterator<'a> {
    // The walk by value, without the slots.
    fn walk(self) -> Walk
        ensures { walk_of result ≡ iterator_walk self.entry }
    {
        Walk {
            queue: self.queue,
            low: self.low,
            high: self.high,
        }
    }

    // Gives the element at the low end, which steps on by one.
    pub fn next(self) -> IteratorStep<'a>
        ensures slots { result.walk.slots ≡ self.entry.slots }
        ensures step { iterator_step result ≡ next_step self.entry.slots.now (iterator_walk self.entry) }
    {
        let w = self.walk();
        lend_step(self.slots, w, walk_next(self.slots, w))
    }

    // Gives the element before the high end, which steps back by one.
    pub fn next_back(self) -> IteratorStep<'a>
        ensures slots { result.walk.slots ≡ self.entry.slots }
        ensures step { iterator_step result ≡ next_back_step self.entry.slots.now (iterator_walk self.entry) }
    {
        let w = self.walk();
        lend_step(self.slots, w, walk_next_back(self.slots, w))
    }
}

impl<'a> IteratorStep<'a> {
    // The walk after the step.
    pub fn rest(self) -> Iterator<'a>
        ensures { (result.slots ≡ self.entry.walk.slots) × (iterator_walk result ≡ (iterator_step self.entry).walk) }
    {
        self.walk
    }
}

// As std's own iterator: a step that is refused gives nothing, as does each one behind it.
impl<'a> std::iter::Iterator for Iterator<'a> {
    type Item = u32;

    ghost use Rattle.std.specs.Iterator.{YieldsFirst, item_count};
    ghost use Rattle.walks.specs.Lent.{left_over};

    ghost next_gives = { YieldsFirst left_over };

    ghost remaining = { item_count left_over };

    fn next(&mut self) -> Option<u32> {
        let step = (*self).next();
        *self = step.walk; // steps on
        step.number.unwrap_or(None)
    }
}

// And from its end.
impl<'a> std::iter::DoubleEndedIterator for Iterator<'a> {
    ghost use Rattle.std.specs.Iterator.{YieldsLast};
    ghost use Rattle.walks.specs.Lent.{left_over};

    ghost next_back_gives = { YieldsLast left_over };

    fn next_back(&mut self) -> Option<u32> {
        let step = (*self).next_back();
        *self = step.walk; // steps back
        step.number.unwrap_or(None)
    }
}

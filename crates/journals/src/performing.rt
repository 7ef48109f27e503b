// What an operation does to a queue.
ghost use Rattle.std.specs.Prelude.{◌≡◌};
ghost use Rattle.rules.specs.Journals.{closing, do_entry};
ghost use Rattle.rules.specs.Outcome.{do_open, told};
ghost use Rattle.queue.specs.Answers.{rec_of};
ghost use Rattle.answers.specs.Answers.{of_answer};
ghost use Rattle.journals.specs.Records.{entry_for};

use super::kinds::Operation;
use answers::{Answer, of_change, of_handed};
use queue::{Deque, State};

// Opens a drain and closes it at once.
fn drain_closed(slots: &mut [u32], q: Deque, start: usize, end: usize) -> Answer
    ensures { (of_answer result, slots.new)
        ≡ told (closing (do_open slots.old (rec_of q) start end)) }
{
    let opened = of_change(State::Shut(q), drains::drain(slots, q, start, end));
    match opened.state {
        State::Shut(_) => opened,
        State::Draining(drain) => {
            of_change(State::Draining(drain), drains::drain_close(slots, drain))
        }
    }
}

impl Operation {
    // Performs it.
    #[tactic(auto, unfolding(rules::specs::Journals::do_entry))]
    pub fn perform(self, slots: &mut [u32], q: Deque) -> Answer
        ensures { (of_answer result, slots.new)
            ≡ told (do_entry slots.old (rec_of q) (entry_for self)) }
    {
        let before = State::Shut(q);
        match self {
            Operation::PushBack(v) => of_change(before, ends::push_back(slots, q, v)),
            Operation::PushFront(v) => of_change(before, ends::push_front(slots, q, v)),
            Operation::PopFront => of_handed(before, ends::pop_front(slots, q)),
            Operation::PopBack => of_handed(before, ends::pop_back(slots, q)),
            Operation::Drain(start, end) => drain_closed(slots, q, start as usize, end as usize),
            Operation::Truncate(n) => of_change(before, ends::truncate(slots, q, n as usize)),
            Operation::TruncateFront(n) => {
                of_change(before, ends::truncate_front(slots, q, n as usize))
            }
            Operation::Insert(index, v) => {
                of_change(before, middle::insert(slots, q, index as usize, v))
            }
            Operation::Remove(index) => of_handed(before, middle::remove(slots, q, index as usize)),
        }
    }
}

// The calls that can change one queue, by their value: those on a queue,
// and those of its open drain. Their answers are told in one form.
#![tactic(auto)]

ghost use Rattle.std.specs.Prelude.{◌≡◌};
ghost use Rattle.rules.specs.Calls.{rule};
ghost use Rattle.rules.specs.Outcome.{do_rule, told};
ghost use Rattle.rules.specs.Sequences.{do_on_drain, do_on_queue};
ghost use Rattle.queue.specs.Answers.{of_change, rec_of};
ghost use Rattle.queue.specs.Drains.{drain_of};
ghost use Rattle.elements.specs.Answers.{of_handed};
ghost use Rattle.answers.specs.Answers.{of_answer};
ghost use Rattle.turn_calls.specs.Calls.{change_of, drain_call_of, edit_of, join_of, removal_of};

use answers::{Answer, of_change, of_handed};
use elements::Handed;
use queue::{Change, Deque, Drain, Refusal, State};
use turn_calls::{DrainCall, Edit, Join, QueueChange, Removal};

// Makes a call that hands nothing over.
#[tactic(auto, unfolding(rules::specs::Calls::rule))]
fn make_edit(slots: &mut [u32], q: Deque, edit: Edit) -> Result<Change<Deque>, Refusal>
    ensures { (of_change q result, slots.new) ≡ told (do_rule slots.old (rec_of q) (rule (edit_of edit))) }
{
    match edit {
        Edit::PushBack(v) => ends::push_back(slots, q, v),
        Edit::PushFront(v) => ends::push_front(slots, q, v),
        Edit::Truncate(n) => ends::truncate(slots, q, n),
        Edit::TruncateFront(n) => ends::truncate_front(slots, q, n),
        Edit::Clear => ends::clear(slots, q),
        Edit::Resize(n, v) => extends::resize(slots, q, n, v),
        Edit::Insert(i, v) => middle::insert(slots, q, i, v),
        Edit::Swap(i, j) => swaps::swap(slots, q, i, j),
        Edit::Retain(test) => retains::retain(slots, q, test),
    }
}

// Makes a call with the values that are lent.
#[tactic(auto, unfolding(rules::specs::Calls::rule))]
fn make_join(slots: &mut [u32], q: Deque, join: Join) -> Result<Change<Deque>, Refusal>
    ensures { (of_change q result, slots.new)
        ≡ told (do_rule slots.old (rec_of q) (rule (join_of join.entry))) }
{
    match join {
        Join::Extend(values) => extends::extend(slots, q, values),
        Join::Prepend(values) => extends::prepend(slots, q, values),
        Join::ExtendFront(values) => extends::extend_front(slots, q, values),
        Join::Splice(start, end, values) => splices::splice(slots, q, start, end, values),
    }
}

// Makes a call that hands an element over.
#[tactic(auto, unfolding(rules::specs::Calls::rule))]
fn make_removal(slots: &mut [u32], q: Deque, removal: Removal) -> Result<Handed<Deque>, Refusal>
    ensures { (of_handed q result, slots.new) ≡ told (do_rule slots.old (rec_of q) (rule (removal_of removal))) }
{
    match removal {
        Removal::PopFront => ends::pop_front(slots, q),
        Removal::PopBack => ends::pop_back(slots, q),
        Removal::PopFrontIf(test) => ends::pop_front_if(slots, q, test),
        Removal::PopBackIf(test) => ends::pop_back_if(slots, q, test),
        Removal::Remove(i) => middle::remove(slots, q, i),
        Removal::SwapRemoveFront(i) => swaps::swap_remove_front(slots, q, i),
        Removal::SwapRemoveBack(i) => swaps::swap_remove_back(slots, q, i),
    }
}

// Makes a call that can change a queue.
#[tactic(auto, unfolding(rules::specs::Sequences::do_on_queue))]
pub fn change(slots: &mut [u32], q: Deque, call: QueueChange) -> Answer
    ensures { (of_answer result, slots.new) ≡ told (do_on_queue slots.old (rec_of q) (change_of call.entry)) }
{
    let before = State::Shut(q);
    match call {
        QueueChange::Editing(one) => of_change(before, make_edit(slots, q, one)),
        QueueChange::Joining(one) => of_change(before, make_join(slots, q, one)),
        QueueChange::Removing(one) => of_handed(before, make_removal(slots, q, one)),
        QueueChange::Fresh => of_change(before, elements::fresh(slots)),
        QueueChange::ReadImage(bytes) => of_change(before, images::read_image(slots, bytes)),
        QueueChange::Drain(start, end) => of_change(before, drains::drain(slots, q, start, end)),
    }
}

// Makes a call of an open drain.
#[tactic(auto, unfolding(rules::specs::Sequences::do_on_drain))]
pub fn drain_call(slots: &mut [u32], d: Drain, call: DrainCall) -> Answer
    ensures { (of_answer result, slots.new) ≡ told (do_on_drain slots.old (drain_of d) (drain_call_of call)) }
{
    let before = State::Draining(d);
    match call {
        DrainCall::Next => of_handed(before, drains::drain_next(slots, d)),
        DrainCall::NextBack => of_handed(before, drains::drain_next_back(slots, d)),
        DrainCall::Close => of_change(before, drains::drain_close(slots, d)),
    }
}

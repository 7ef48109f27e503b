// A call on either of two queues, or on both.
ghost use Rattle.std.specs.Prelude.{◌≡◌};
ghost use Rattle.rules.specs.Sequences.{Queue as Other, of_both, of_drain, of_queue};
ghost use Rattle.turn_calls.specs.Calls.{call_of, drain_call_of, pair_call_of, queue_call_of, turn_of};
ghost use Rattle.turns.specs.Answers.{held, told_first, told_left, told_turn};

use super::held::{PASSED_OVER, Queue, told_look};
use answers::StepAnswer;
use queue::State;
use turn_calls::{Call, DrainCall, PairCall, QueueCall, Side};
use turn_changes::{change, drain_call};
use turn_looks::{ask, ask_both};

// Makes a call on a queue; while a drain of it is open it is passed over.
fn on_queue(first: &mut Queue, call: QueueCall) -> StepAnswer
    ensures step { (second : Other)
        → told_left result (held first.new) second
        ≡ told_first (held first.old) second (of_queue (queue_call_of call.entry)) }
    ensures same_slots { first.new.slots.ghost_name ≡ first.old.slots.ghost_name }
{
    let State::Shut(q) = first.state else {
        return PASSED_OVER;
    };
    match call {
        QueueCall::Changing(one) => {
            let answer = change(first.slots, q, one);
            first.keep(answer)
        }
        QueueCall::Asking(one) => told_look(ask(first.lent(), q, one)),
    }
}

// Makes a call of a queue's drain; where none is open it is passed over.
fn on_drain(first: &mut Queue, call: DrainCall) -> StepAnswer
    ensures step { (second : Other)
        → told_left result (held first.new) second
        ≡ told_first (held first.old) second (of_drain (drain_call_of call)) }
    ensures same_slots { first.new.slots.ghost_name ≡ first.old.slots.ghost_name }
{
    let State::Draining(d) = first.state else {
        return PASSED_OVER;
    };
    let answer = drain_call(first.slots, d, call);
    first.keep(answer)
}

// Makes a call on both queues; while a drain of either is open it is passed over.
fn on_both(first: &mut Queue, second: &mut Queue, call: PairCall) -> StepAnswer
    ensures step { told_left result (held first.new) (held second.new)
        ≡ told_first (held first.old) (held second.old) (of_both (pair_call_of call)) }
    ensures same_slots { (first.new.slots.ghost_name ≡ first.old.slots.ghost_name)
        × (second.new.slots.ghost_name ≡ second.old.slots.ghost_name) }
{
    let (State::Shut(q), State::Shut(other)) = (first.state, second.state) else {
        return PASSED_OVER;
    };
    match call {
        PairCall::Append => {
            let change = joins::append(first.slots, q, second.lent(), other);
            first.keep_both(second, change)
        }
        PairCall::SplitOff(at) => {
            let change = joins::split_off(first.lent(), q, at, second.slots);
            first.keep_both(second, change)
        }
        PairCall::MoveAll => {
            let change = regions::move_all(first.lent(), q, second.slots);
            first.keep_both(second, change)
        }
        PairCall::MovePortion(n) => {
            let change = regions::move_portion(first.lent(), q, n, second.slots, other);
            first.keep_both(second, change)
        }
        PairCall::Comparing(one) => told_look(ask_both(first.lent(), q, second.lent(), other, one)),
    }
}

// Makes a call on the first of two queues, of its drain, or on both.
fn on_first(first: &mut Queue, second: &mut Queue, call: Call) -> StepAnswer
    ensures step { told_left result (held first.new) (held second.new)
        ≡ told_first (held first.old) (held second.old) (call_of call.entry) }
    ensures same_slots { (first.new.slots.ghost_name ≡ first.old.slots.ghost_name)
        × (second.new.slots.ghost_name ≡ second.old.slots.ghost_name) }
{
    match call {
        Call::OfQueue(one) => on_queue(first, one),
        Call::OfDrain(one) => on_drain(first, one),
        Call::OfBoth(one) => on_both(first, second, one),
    }
}

// Makes a call on one of two queues, A and B. Each call given what the last left, a sequence of them is a sequence of
// the rules' steps.
#[tactic(auto, unfolding(rules::specs::Sequences::step, rules::specs::Sequences::facing))]
pub fn turn(a: &mut Queue, b: &mut Queue, side: Side, call: Call) -> StepAnswer
    ensures step { told_left result (held a.new) (held b.new)
        ≡ told_turn (held a.old) (held b.old) (turn_of side call.entry) }
    ensures same_slots { (a.new.slots.ghost_name ≡ a.old.slots.ghost_name)
        × (b.new.slots.ghost_name ≡ b.old.slots.ghost_name) }
{
    match side {
        Side::A => on_first(a, b, call),
        Side::B => on_first(b, a, call),
    }
}

// A line's call, made on the two queues.
#![tactic(auto)]

mod turning; // turning.rt: what is said of the calls of a sequence

use places::WrappedIndex;
use queue::Deque;
pub use trial_looks::{BothLent, Kept, Lent, Queues};
use trial_text::{Action, Answer, Line, Said};
use turning::said_of;
use turns::{Call, Side, turn};

// Whether a line can be played: the calls of a drain ask for an open one.
pub fn can_play(line: &Line, queues: Queues) -> bool {
    match line.action {
        Action::Turn(Call::OfDrain(_)) => queues.of(line.side).record().is_none(),
        _ => true,
    }
}

// Makes a line's call.
pub fn make_call<'s>(side: Side, action: Action<'s>, queues: &'s mut BothLent<'_>) -> Said<'s> {
    match action {
        Action::Turn(call) => {
            let told = turn(&mut queues.a.queue, &mut queues.b.queue, side, call);
            said_of(call, told)
        }
        Action::FrontRun(start, end) => queues.of(side).front_run(start, end),
        Action::BackRun(start, end) => queues.of(side).back_run(start, end),
        Action::WriteImage(target) => queues.of(side).write_image(target),
        Action::BeginWalk => queues.of(side).begin_walk(),
        Action::WalkNext => queues.of(side).walk_next(),
        Action::WalkNextBack => queues.of(side).walk_next_back(),
        Action::SetState(state) => {
            queues.of(side).queue.state = state;
            Said::accepted(Answer::Nothing)
        }
        Action::SetWalk(walk) => {
            queues.of(side).walk = Some(walk);
            Said::accepted(Answer::Nothing)
        }
        Action::Plant(record) => {
            plant(queues, record);
            Said::accepted(Answer::Nothing)
        }
    }
}

// A gets the slots 10, 11, .. and the record, B the slots 20, 21 and a record whose two elements wrap.
fn plant(queues: &mut BothLent, record: Deque) {
    queues.a.plant(10, record);
    queues.b.plant(
        20,
        Deque {
            head: WrappedIndex::from_arbitrary_number(1),
            len: 2,
            mark: false,
        },
    );
}

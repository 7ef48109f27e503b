// The one form of an answer, and the answers of the calls on one queue and of its drain.
ghost use Rattle.std.specs.Prelude.{◌≡◌};
ghost use Rattle.rules.specs.Replays.{rec_or};
ghost use Rattle.queue.specs.Answers.{changing, number_of, rec_of};
ghost use Rattle.queue.specs.Drains.{state_of};
ghost use Rattle.elements.specs.Answers.{handing};
ghost use Rattle.answers.specs.Answers.{of_answer, refusing};

use super::keeping::Kept;
use elements::Handed;
use queue::{Change, Deque, Refusal, State};

// What a call on one queue answers: why it was refused, if it was; the moved count; the record; what was handed over.
#[derive(Clone, Copy)]
pub struct Answer {
    pub refused: Option<Refusal>,
    pub moved: usize,
    pub state: State,
    pub handed: Option<u32>,
}

impl Answer {
    // The record of the queue, for a caller who keeps no drain open; while one is, the record before.
    #[tactic(auto, unfolding(rules::specs::Replays::rec_or))]
    pub fn record_or(self, before: Deque) -> Deque
        ensures { rec_of result ≡ rec_or (rec_of before) (state_of self.state) }
    {
        match self.state {
            State::Shut(queue) => queue,
            State::Draining(_) => before,
        }
    }
}

// The answer of a refused call: what was held before it stands, and nothing moved.
fn refused(before: State, refusal: Refusal) -> Answer
    ensures { of_answer result ≡ refusing (number_of refusal) 0 (state_of before) }
{
    Answer {
        refused: Some(refusal),
        moved: 0,
        state: before,
        handed: None,
    }
}

// The answer of a call that hands nothing over, where `before` was held before it.
pub fn of_change<R: Kept>(before: State, change: Result<Change<R>, Refusal>) -> Answer
    ensures { of_answer result ≡ changing R.told (state_of before) change }
{
    match change {
        Ok(change) => Answer {
            refused: None,
            moved: change.moved,
            state: change.after.kept(),
            handed: None,
        },
        Err(refusal) => refused(before, refusal),
    }
}

// The answer of a call that can hand an element over.
pub fn of_handed<R: Kept>(before: State, handed: Result<Handed<R>, Refusal>) -> Answer
    ensures { of_answer result ≡ handing R.told (state_of before) handed }
{
    match handed {
        Ok(handed) => Answer {
            refused: None,
            moved: handed.moved,
            state: handed.after.kept(),
            handed: handed.number,
        },
        Err(refusal) => refused(before, refusal),
    }
}

// A queue that calls are made on, and what their answers leave of it.
ghost use Rattle.std.specs.Prelude.{◌≡◌};
ghost use Rattle.rules.specs.Outcome.{State as Kept};
ghost use Rattle.queue.specs.Drains.{state_of};
ghost use Rattle.queue.specs.Looks.{look_of};
ghost use Rattle.answers.specs.Answers.{changing_both, of_answer, of_step_answer};
ghost use Rattle.answers.specs.Sights.{of_sight};
ghost use Rattle.turns.specs.Answers.{look_answered, one_answered};

use answers::{Answer, Sight, StepAnswer};
use queue::{Change, Pair, Refusal, State};

// Its slots, which are lent, and its record or that of its open drain.
#[derive(Drop)]
pub struct Queue<'a> {
    pub slots: &'a mut [u32],
    pub state: State,
}

// What is told of a call that is passed over.
pub const PASSED_OVER: StepAnswer = StepAnswer {
    refused: None,
    moved: 0,
    handed: None,
    sight: None,
};

// What is told of a look.
#[tactic(auto, unfolding(rules::specs::Looks::refused_by, rules::specs::Looks::seen_by))]
pub fn told_look(look: Result<Sight, Refusal>) -> StepAnswer
    ensures { (h h' : Kept) → of_step_answer result h h' ≡ look_answered (look_of of_sight look) h h' }
{
    match look {
        Ok(sight) => StepAnswer {
            sight: Some(sight),
            ..PASSED_OVER
        },
        Err(refusal) => StepAnswer {
            refused: Some(refusal),
            ..PASSED_OVER
        },
    }
}

impl Queue<'_> {
    // Its slots, to be looked at.
    pub(crate) fn lent(&self) -> &[u32]
        ensures { result.now ≡ self.now.slots.now }
    {
        self.slots
    }

    // Keeps what a call on this queue left, and tells the rest of its answer.
    pub(crate) fn keep(&mut self, answer: Answer) -> StepAnswer
        ensures told { (h : Kept)
            → of_step_answer result (state_of self.new.state) h ≡ one_answered (of_answer answer) h }
        ensures same_slots { self.new.slots ≡ self.old.slots }
    {
        self.state = answer.state;
        StepAnswer {
            refused: answer.refused,
            moved: answer.moved,
            handed: answer.handed,
            ..PASSED_OVER
        }
    }

    // Keeps what a call on this queue and the other left, and tells the rest of its answer.
    pub(crate) fn keep_both(
        &mut self,
        other: &mut Queue,
        change: Result<Change<Pair>, Refusal>,
    ) -> StepAnswer
        ensures told { of_step_answer result (state_of self.new.state) (state_of other.new.state)
            ≡ changing_both (state_of self.old.state) (state_of other.old.state) change }
        ensures same_slots { (self.new.slots ≡ self.old.slots) × (other.new.slots ≡ other.old.slots) }
    {
        match change {
            Ok(change) => {
                self.state = State::Shut(change.after.queue);
                other.state = State::Shut(change.after.other);
                StepAnswer {
                    moved: change.moved,
                    ..PASSED_OVER
                }
            }
            Err(refusal) => StepAnswer {
                refused: Some(refusal),
                ..PASSED_OVER
            },
        }
    }
}

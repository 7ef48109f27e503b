// What is said of the calls of a sequence.
use answers::{Sight, StepAnswer};
use queue::{Runs, Span};
use trial_text::{Answer, Said};
use turns::{Ask, Call, DrainCall, QueueCall, QueueChange};

// No run at all.
const NOWHERE: Span = Span { start: 0, end: 0 };

// What there is to say of a call: where it is accepted, what it handed over, or `none` if it could have, or what it saw;
// where it is refused, nothing, but of two ranges there are always two.
fn answer_of(call: Call, told: StepAnswer) -> Answer<'static> {
    match (call, told.refused, told.sight) {
        (Call::OfQueue(QueueCall::Asking(Ask::SliceRanges(_, _))), Some(_), _) => {
            Answer::Seen(Sight::Ranges(Runs {
                front: NOWHERE,
                back: NOWHERE,
            }))
        }
        (_, Some(_), _) => Answer::Nothing,
        (
            Call::OfQueue(QueueCall::Changing(QueueChange::Removing(_)))
            | Call::OfDrain(DrainCall::Next | DrainCall::NextBack),
            None,
            _,
        ) => Answer::Seen(Sight::Element(told.handed)),
        (_, None, Some(sight)) => Answer::Seen(sight),
        (_, None, None) => Answer::Nothing,
    }
}

// What is said of a call that told this.
pub fn said_of(call: Call, told: StepAnswer) -> Said<'static> {
    Said {
        refused: told.refused,
        moved: told.moved,
        answer: answer_of(call, told),
    }
}

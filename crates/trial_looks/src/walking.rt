// The calls of a queue's walk, which keeps a record of its own.
use crate::keeping::Lent;
use answers::Sight;
use elements::Step;
use trial_text::{Answer, Said};
use vec_deque::Refusal;

impl Lent<'_> {
    // Begins the walk; while a drain is open it is passed over.
    pub fn begin_walk(&mut self) -> Said<'static> {
        let Some(record) = self.record() else {
            return Said::accepted(Answer::Nothing);
        };
        match vec_deque::begin_walk(self.slots(), record) {
            Ok(walk) => {
                self.walk = Some(walk);
                Said::accepted(Answer::Nothing)
            }
            Err(refusal) => Said::refused(refusal, Answer::Nothing),
        }
    }

    // The walk's step from the front.
    pub fn walk_next(&mut self) -> Said<'static> {
        let stepped = self
            .walk
            .map(|walk| vec_deque::walk_next(self.slots(), walk));
        self.keep_step(stepped)
    }

    // The walk's step from the back.
    pub fn walk_next_back(&mut self) -> Said<'static> {
        let stepped = self
            .walk
            .map(|walk| vec_deque::walk_next_back(self.slots(), walk));
        self.keep_step(stepped)
    }

    // Keeps the walk behind a step, and says what that gave. Without a walk there was no step, and it found nothing.
    fn keep_step(&mut self, stepped: Option<Result<Step, Refusal>>) -> Said<'static> {
        match stepped {
            Some(Ok(step)) => {
                self.walk = Some(step.walk);
                Said::accepted(Answer::Seen(Sight::Element(step.number)))
            }
            Some(Err(refusal)) => Said::refused(refusal, Answer::Nothing),
            None => Said::accepted(Answer::Seen(Sight::Element(None))),
        }
    }
}

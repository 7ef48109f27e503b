// The looks that no sequence of calls has. While a drain is open they are passed over.
use crate::keeping::Lent;
use trial_text::{Answer, Said};

impl Lent<'_> {
    // The front run of a range of positions.
    pub fn front_run(&self, start: usize, end: usize) -> Said<'_> {
        Said::accepted(
            self.record().map_or(Answer::Nothing, |record| {
                Answer::Part(vec_deque::front_run(self.slots(), record, start, end))
            }),
        )
    }

    // The back run of a range of positions.
    pub fn back_run(&self, start: usize, end: usize) -> Said<'_> {
        Said::accepted(
            self.record().map_or(Answer::Nothing, |record| {
                Answer::Part(vec_deque::back_run(self.slots(), record, start, end))
            }),
        )
    }

    // Writes the queue's image into a target.
    pub fn write_image<'t>(&self, target: &'t mut [u8]) -> Said<'t> {
        let Some(record) = self.record() else {
            return Said::accepted(Answer::Nothing);
        };
        match vec_deque::write_image(self.slots(), record, target) {
            Ok(count) => Said::accepted(Answer::Image(count, target)),
            Err(refusal) => Said::refused(refusal, Answer::Image(0, target)),
        }
    }
}

// What a call on either of two queues, or on both, tells beside the records that it leaves.
use super::sights::Sight;
use queue::Refusal;

// Why it was refused, if it was; the moved count; what was handed over and what was seen, if anything was.
#[derive(Clone, Copy)]
pub struct StepAnswer {
    pub refused: Option<Refusal>,
    pub moved: usize,
    pub handed: Option<u32>,
    pub sight: Option<Sight>,
}

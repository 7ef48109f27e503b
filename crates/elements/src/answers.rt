// What an accepted call answers that can hand an element over. One that is refused answers its refusal.
use queue::Walk;

// What was handed over, the record after the call, and how many elements it moved. `None` comes without change.
#[derive(Clone, Copy)]
pub struct Handed<R> {
    pub number: Option<u32>,
    pub after: R,
    pub moved: usize,
}

// What a walk's step gave, and the walk after it. `None` comes with the same walk.
#[derive(Clone, Copy)]
pub struct Step {
    pub number: Option<u32>,
    pub walk: Walk,
}

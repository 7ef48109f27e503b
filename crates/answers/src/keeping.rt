// What a call can leave of a queue: its record, or that of its open drain.
ghost use Rattle.std.specs.Prelude.{◌≡◌};
ghost use Rattle.rules.specs.Outcome.{State as Told};
ghost use Rattle.queue.specs.Answers.{queued};
ghost use Rattle.queue.specs.Drains.{drained, state_of};

use queue::{Deque, Drain, State};

// A record that a call leaves.
pub trait Kept {
    // what the rules call it
    ghost told: { Self → Told };

    // What its caller keeps of the queue.
    fn kept(self) -> State
        ensures { state_of result ≡ told self };
}

impl Kept for Deque {
    ghost told = { queued };

    fn kept(self) -> State {
        State::Shut(self)
    }
}

impl Kept for Drain {
    ghost told = { drained };

    fn kept(self) -> State {
        State::Draining(self)
    }
}

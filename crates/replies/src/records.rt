// The records as they cross: the numbers of their fields, one behind the other, as words of the caller's memory.
// A record that is changed there goes back and forth field by field, so a load never waits for two stores.
ghost use Rattle.std.specs.Prelude.{◌≡◌, List, ℕ};
ghost use Rattle.queue.specs.Answers.{rec_of};
ghost use Rattle.queue.specs.Drains.{drain_of};
ghost use Rattle.queue.specs.Looks.{runs_of, walk_of};
ghost use Rattle.replies.specs.Records.{rec_in, drain_in, walk_in};
ghost use Rattle.replies.specs.Records.{rec_words, drain_words, walk_words, runs_words};

use places::WrappedIndex;
use queue::{Deque, Drain, Runs, Walk};

// How many words the record of a queue has: head, len, mark.
pub const RECORD: usize = 3;

// Of an open drain.
pub const DRAIN: usize = 6;

// Of a walk by value: the queue's, and its two ends.
pub const WALK: usize = RECORD + 2;

// Of the places of two runs.
pub const RUNS: usize = 4;

// The record of a queue. Any mark but 0 is set: so a word that no call stored can't be taken for none.
#[tactic(auto, unfolding(crate::specs::Records::rec_in, crate::specs::Records::rec_from))]
pub fn deque_in(q: &[usize; RECORD]) -> Deque
    ensures { rec_of result ≡ rec_in q.now }
{
    let [head, len, mark] = *q;
    Deque {
        head: WrappedIndex::from_arbitrary_number(head),
        len,
        mark: mark != 0,
    }
}

// The record of an open drain.
#[tactic(auto, unfolding(crate::specs::Records::drain_in))]
pub fn drain_in(d: &[usize; DRAIN]) -> Drain
    ensures { drain_of result ≡ drain_in d.now }
{
    let [head, start, drain_len, idx, tail_len, remaining] = *d;
    Drain {
        head: WrappedIndex::from_arbitrary_number(head),
        start,
        drain_len,
        idx,
        tail_len,
        remaining,
    }
}

// A walk by value.
#[tactic(auto, unfolding(crate::specs::Records::walk_in, crate::specs::Records::rec_in))]
pub fn walk_in(w: &[usize; WALK]) -> Walk
    ensures { walk_of result ≡ walk_in w.now }
{
    let [head, len, mark, low, high] = *w;
    Walk {
        queue: deque_in(&[head, len, mark]),
        low,
        high,
    }
}

// A record that is stored as `N` words.
pub trait Stored<const N: usize>: Copy {
    ghost words: { Self → List ℕ };

    // Its words.
    fn to_words(self) -> [usize; N]
        ensures { result ≡ words self };
}

#[tactic(auto, unfolding(crate::specs::Records::rec_words, rules::specs::Choices::whether))]
impl Stored<RECORD> for Deque {
    ghost words = { λ q. rec_words (rec_of q) };

    fn to_words(self) -> [usize; RECORD] {
        [self.head.as_index(), self.len, usize::from(self.mark)]
    }
}

#[tactic(auto, unfolding(crate::specs::Records::drain_words))]
impl Stored<DRAIN> for Drain {
    ghost words = { λ d. drain_words (drain_of d) };

    fn to_words(self) -> [usize; DRAIN] {
        [
            self.head.as_index(),
            self.start,
            self.drain_len,
            self.idx,
            self.tail_len,
            self.remaining,
        ]
    }
}

#[tactic(auto, unfolding(crate::specs::Records::walk_words, crate::specs::Records::rec_words))]
impl Stored<WALK> for Walk {
    ghost words = { λ w. walk_words (walk_of w) };

    fn to_words(self) -> [usize; WALK] {
        let [head, len, mark]: [usize; RECORD] = self.queue.to_words();
        [head, len, mark, self.low, self.high]
    }
}

#[tactic(auto, unfolding(crate::specs::Records::runs_words))]
impl Stored<RUNS> for Runs {
    ghost words = { λ r. runs_words (runs_of r) };

    fn to_words(self) -> [usize; RUNS] {
        let Runs { front, back } = self;
        [front.start, front.end, back.start, back.end]
    }
}

// Where a replay stands, and what a call of it has done.
ghost use Rattle.std.specs.Prelude.{List, ◌≡◌, ℕ};
ghost use Rattle.plays.specs.Playing.{play_of};
ghost use Rattle.rules.specs.WholeReplay.{starting};

use queue::Deque;

// Where a replay stands: in the records, in the last line before element i, or behind it.
#[derive(Clone, Copy)]
pub enum Stage {
    Records,
    Elements(usize),
    Over,
}

// A replay between two pieces. Its slots are the caller's.
#[derive(Clone, Copy)]
pub struct Playing {
    pub queue: Deque,
    pub stage: Stage,
}

// What a call has done: where the replay stands now, how many of the bytes it used, how many records
// it played, whether the next one was broken, and how many bytes it wrote. A broken record is not used.
#[derive(Clone, Copy)]
pub struct Advanced {
    pub playing: Playing,
    pub used: usize,
    pub records: usize,
    pub broken: bool,
    pub written: usize,
}

// A replay before its first byte, on an empty queue.
pub fn start() -> Playing
    ensures { (b : List ℕ) → play_of b result ≡ starting b }
{
    Playing {
        queue: queue::new_record(0),
        stage: Stage::Records,
    }
}

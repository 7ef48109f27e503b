// What is kept of a queue.
ghost use Rattle.std.specs.Prelude.{◌≡◌, None, Some};

use queue::{Deque, State, Walk};
use turns::{Queue, Side};

// What is kept of a queue beside its slots: its record or that of its open drain, and its walk, if it has one.
// Stays: a type of its own, which is Copy, as what holds the lent slots can't be.
#[derive(Clone, Copy)]
pub struct Kept {
    pub state: State,
    pub walk: Option<Walk>,
}

impl Kept {
    // The record, unless a drain is open.
    pub fn record(self) -> Option<Deque>
        ensures shut { (q : _) → self.state ≡ State.Shut q → result ≡ Some q }
        ensures draining { (d : _) → self.state ≡ State.Draining d → result ≡ None }
    {
        match self.state {
            State::Shut(record) => Some(record),
            State::Draining(_) => None,
        }
    }
}

// What is kept of the two queues.
#[derive(Clone, Copy)]
pub struct Queues {
    pub a: Kept,
    pub b: Kept,
}

impl Queues {
    // What is kept of the queue that a call is made on.
    pub fn of(self, side: Side) -> Kept
        ensures a { side ≡ Side.A → result ≡ self.a }
        ensures b { side ≡ Side.B → result ≡ self.b }
    {
        match side {
            Side::A => self.a,
            Side::B => self.b,
        }
    }
}

// A queue with its lent slots, and its walk, if it has one.
#[derive(Drop)]
pub struct Lent<'s> {
    pub queue: Queue<'s>,
    pub walk: Option<Walk>,
}

// The two queues with their slots.
#[derive(Drop)]
pub struct BothLent<'s> {
    pub a: Lent<'s>,
    pub b: Lent<'s>,
}

impl<'s> Lent<'s> {
    // An empty queue, over slots that hold `first` and the numbers behind it.
    pub fn new(slots: &'s mut [u32], first: u32) -> Lent<'s>
        ensures { result.walk ≡ None }
    {
        let record = queue::new_record(0);
        let queue = Queue {
            slots,
            state: State::Shut(record),
        };
        let mut lent = Lent { queue, walk: None };
        lent.plant(first, record);
        lent
    }

    // Fills the slots with `first` and the numbers behind it, and sets the record. There is no walk then.
    pub fn plant(&mut self, first: u32, record: Deque)
        ensures { (self.new.queue.state ≡ State.Shut «record») × (self.new.walk ≡ None) }
    {
        for (slot, value) in self.queue.slots.iter_mut().zip(first..) {
            *slot = value;
        }
        self.queue.state = State::Shut(record);
        self.walk = None;
    }

    // The slots, to be looked at.
    pub fn slots(&self) -> &[u32]
        ensures { result.now ≡ self.now.queue.slots.now }
    {
        self.queue.slots
    }

    // The record, unless a drain is open.
    pub fn record(&self) -> Option<Deque>
        ensures shut { (q : _) → self.now.queue.state ≡ State.Shut q → result ≡ Some q }
        ensures draining { (d : _) → self.now.queue.state ≡ State.Draining d → result ≡ None }
    {
        self.kept().record()
    }

    // What is kept of it beside the slots.
    pub fn kept(&self) -> Kept
        ensures { (result.state ≡ self.now.queue.state) × (result.walk ≡ self.now.walk) }
    {
        Kept {
            state: self.queue.state,
            walk: self.walk,
        }
    }
}

impl<'s> BothLent<'s> {
    // What is kept of both beside the slots.
    pub fn kept(&self) -> Queues
        ensures a { (result.a.state ≡ self.now.a.queue.state) × (result.a.walk ≡ self.now.a.walk) }
        ensures b { (result.b.state ≡ self.now.b.queue.state) × (result.b.walk ≡ self.now.b.walk) }
    {
        Queues {
            a: self.a.kept(),
            b: self.b.kept(),
        }
    }

    // The queue that a call is made on.
    pub fn of(&mut self, side: Side) -> &mut Lent<'s>
        ensures a { side ≡ Side.A → result.now ≡ self.old.a }
        ensures b { side ≡ Side.B → result.now ≡ self.old.b }
    {
        match side {
            Side::A => &mut self.a,
            Side::B => &mut self.b,
        }
    }
}

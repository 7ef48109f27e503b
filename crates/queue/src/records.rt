// The records of a queue, of its open drain, of a walk and of a run, and the functions that make them.
ghost use Rattle.std.specs.Prelude.{◌≡◌, ◌+◌, ◌<◌, ◌≤◌, eqb};
ghost use Rattle.rules.specs.Drains.{opened, one_less, from_front, from_back, spread, as_opened};
ghost use Rattle.rules.specs.Records.{stepped, new_rec, with_mark};
ghost use Rattle.rules.specs.Choices.{whether};
ghost use Rattle.rules.specs.Walks.{whole_walk};
ghost use Rattle.queue.specs.Answers.{rec_of};
ghost use Rattle.queue.specs.Drains.{drain_of};
ghost use Rattle.queue.specs.Looks.{walk_of};

use places::WrappedIndex;

// Element i stands `i` places on from `head`. The mark is set while elements are still to come, by portions, from the
// queue that is moved into this one.
#[derive(Clone, Copy)]
pub struct Deque {
    pub head: WrappedIndex,
    pub len: usize,
    pub mark: bool,
}

// The record of an open drain. In front of the drained range stand `start` elements, behind it `tail_len`; of its
// `drain_len` elements the `remaining` from position `idx` on are not handed over yet.
#[derive(Clone, Copy)]
pub struct Drain {
    pub head: WrappedIndex,
    pub start: usize,
    pub drain_len: usize,
    pub idx: usize,
    pub tail_len: usize,
    pub remaining: usize,
}

// What a caller keeps of a queue: its record, or that of its open drain.
#[derive(Clone, Copy)]
pub enum State {
    Shut(Deque),
    Draining(Drain),
}

// What is still to be walked: the positions from `low` to before `high`.
#[derive(Clone, Copy)]
pub struct Walk {
    pub queue: Deque,
    pub low: usize,
    pub high: usize,
}

// A part of the slots: from `start` to before `end`.
#[derive(Clone, Copy)]
pub struct Span {
    pub start: usize,
    pub end: usize,
}

// The record after an accepted call that leaves `len` elements from `head` on.
pub fn stepped(q: Deque, head: WrappedIndex, len: usize) -> Deque
    ensures { rec_of result ≡ stepped (rec_of q) head.0 len }
{
    Deque {
        head,
        len,
        mark: q.mark,
    }
}

// The record with the mark set, or cleared.
pub fn with_mark(q: Deque, mark: bool) -> Deque
    ensures { rec_of result ≡ with_mark mark (rec_of q) }
{
    let head = q.head;
    Deque {
        head,
        len: q.len,
        mark,
    }
}

// A new record over `len` elements that stand from the first slot on, without a mark.
pub fn new_record(len: usize) -> Deque
    ensures { rec_of result ≡ new_rec len }
{
    Deque {
        head: WrappedIndex::zero(),
        len,
        mark: false,
    }
}

// The head of a queue of `len` elements: the first slot if nothing remains.
pub fn head_over(head: WrappedIndex, len: usize) -> WrappedIndex
    ensures { result.0 ≡ whether (eqb len 0) 0 head.0 }
{
    if len == 0 {
        return WrappedIndex::zero();
    }
    head
}

// The drain of a range, as it is opened.
pub fn opened_drain(q: Deque, start: usize, end: usize) -> Drain
    requires { (start ≤ end) × (end ≤ q.len) }
    ensures { drain_of result ≡ opened (rec_of q) start end }
{
    let head = q.head;
    let drain_len = end - start;
    Drain {
        head,
        start,
        drain_len,
        idx: start,
        tail_len: q.len - end,
        remaining: drain_len,
    }
}

// The drain with one less to hand over, from position `idx` on.
fn one_less(d: Drain, idx: usize) -> Drain
    requires { 0 < d.remaining }
    ensures { drain_of result ≡ one_less (drain_of d) idx }
{
    let head = d.head;
    Drain {
        head,
        start: d.start,
        drain_len: d.drain_len,
        idx,
        tail_len: d.tail_len,
        remaining: d.remaining - 1,
    }
}

// The drain once its first remaining element is handed over.
pub fn from_front(d: Drain) -> Drain
    requires { (0 < d.remaining) × (d.idx + 1 < 18446744073709551616) }
    ensures { drain_of result ≡ from_front (drain_of d) }
{
    one_less(d, d.idx + 1)
}

// The drain once its last remaining element is handed over.
pub fn from_back(d: Drain) -> Drain
    requires { 0 < d.remaining }
    ensures { drain_of result ≡ from_back (drain_of d) }
{
    one_less(d, d.idx)
}

// The queue's record as the drain was opened, which it is only on a queue without a mark.
pub fn as_opened(d: Drain) -> Deque
    requires { spread (drain_of d) < 18446744073709551616 }
    ensures { rec_of result ≡ as_opened (drain_of d) }
{
    let head = d.head;
    Deque {
        head,
        len: d.start + d.drain_len + d.tail_len,
        mark: false,
    }
}

// The queue's record once the drain is closed and the elements that are left begin at `head`.
pub fn closed_record(d: Drain, head: WrappedIndex) -> Deque
    requires { spread (drain_of d) < 18446744073709551616 }
    ensures { rec_of result
        ≡ stepped (as_opened (drain_of d)) (whether (eqb (d.start + d.tail_len) 0) 0 head.0)
        (d.start + d.tail_len) }
{
    let len = d.start + d.tail_len;
    stepped(as_opened(d), head_over(head, len), len)
}

// The walk over the whole list of a queue.
pub fn whole_walk(q: Deque) -> Walk
    ensures { walk_of result ≡ whole_walk (rec_of q) }
{
    Walk {
        queue: q,
        low: 0,
        high: q.len,
    }
}

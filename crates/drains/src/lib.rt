// Drain: a range of a queue is handed over element by element, from either end; then the hole that it leaves is closed.
#![tactic(auto)]

ghost use Rattle.std.specs.Prelude.{◌≡◌};
ghost use Rattle.rules.specs.Outcome.{told, do_open, do_next, do_next_back, do_close};
ghost use Rattle.queue.specs.Answers.{rec_of};
ghost use Rattle.queue.specs.Drains.{drain_of, of_opened, of_closed};
ghost use Rattle.elements.specs.Answers.{of_drawn};

use elements::Handed;
use holes::Hole;
use queue::{Change, Deque, Drain, Refusal};

// Opens a drain of the positions from `start` up to `end`.
pub fn drain(slots: &[u32], q: Deque, start: usize, end: usize) -> Result<Change<Drain>, Refusal>
    ensures { (of_opened q result, slots.now) ≡ told (do_open slots.now (rec_of q) start end) }
{
    queue::check_change(slots.len(), q)?;
    queue::check_range(q.len, start, end)?;
    Ok(Change {
        after: queue::opened_drain(q, start, end),
        moved: 0,
    })
}

// Hands the first remaining element over.
pub fn drain_next(slots: &[u32], d: Drain) -> Result<Handed<Drain>, Refusal>
    ensures { (of_drawn d result, slots.now) ≡ told (do_next slots.now (drain_of d)) }
{
    queue::check_drain(slots.len(), d)?;
    if d.remaining == 0 {
        return Ok(Handed {
            number: None,
            after: d,
            moved: 0,
        });
    }
    Ok(Handed {
        number: Some(elements::element(slots, queue::as_opened(d), d.idx)),
        after: queue::from_front(d),
        moved: 0,
    })
}

// Hands the last remaining element over.
pub fn drain_next_back(slots: &[u32], d: Drain) -> Result<Handed<Drain>, Refusal>
    ensures { (of_drawn d result, slots.now) ≡ told (do_next_back slots.now (drain_of d)) }
{
    queue::check_drain(slots.len(), d)?;
    if d.remaining == 0 {
        return Ok(Handed {
            number: None,
            after: d,
            moved: 0,
        });
    }
    let last = d.idx + (d.remaining - 1);
    Ok(Handed {
        number: Some(elements::element(slots, queue::as_opened(d), last)),
        after: queue::from_back(d),
        moved: 0,
    })
}

// Closes the drain: what was not handed over leaves, and the queue is whole again.
pub fn drain_close(slots: &mut [u32], d: Drain) -> Result<Change<Deque>, Refusal>
    ensures { (of_closed d result, slots.new) ≡ told (do_close slots.old (drain_of d)) }
{
    queue::check_drain(slots.len(), d)?;
    let hole = Hole {
        head: d.head,
        start: d.start,
        new: 0,
        len: d.drain_len,
        tail: d.tail_len,
    };
    let settled = holes::close_hole(slots, hole);
    Ok(Change {
        after: queue::closed_record(d, settled.head),
        moved: settled.moved,
    })
}

// A queue as text: its record or that of its open drain, its walk, and its slots.
use crate::keeping::{Kept, Lent};
use queue::State;
use std::fmt;
use trial_text::Spaced;

// Of more slots than this only a sum is shown.
const SHOWN: usize = 64;

// The sum counts round this number.
const ROUND: usize = 65521;

// The sum with one slot's value more.
fn mixed(sum: usize, value: u32) -> usize {
    (sum % ROUND * 31 + value as usize % ROUND) % ROUND
}

// Writes a record, or an open drain in its place.
fn write_state<W: fmt::Write>(f: &mut fmt::Formatter<W>, state: State) -> fmt::Result {
    match state {
        State::Shut(record) => write!(
            f,
            "{} {} o{}",
            record.head.as_index(),
            record.len,
            u8::from(record.mark)
        ),
        State::Draining(drain) => write!(
            f,
            "d {} {} {} {} {} {}",
            drain.head.as_index(),
            drain.start,
            drain.drain_len,
            drain.idx,
            drain.tail_len,
            drain.remaining
        ),
    }
}

impl fmt::Display for Kept {
    fn fmt<W: fmt::Write>(&self, f: &mut fmt::Formatter<W>) -> fmt::Result {
        write_state(f, self.state)?;
        if let Some(walk) = self.walk {
            write!(f, " w {} {}", walk.low, walk.high)?;
        }
        Ok(())
    }
}

impl fmt::Display for Lent<'_> {
    fn fmt<W: fmt::Write>(&self, f: &mut fmt::Formatter<W>) -> fmt::Result {
        write!(f, "{}", self.kept())?;
        let values = self.slots();
        if values.len() > SHOWN {
            let sum = values.iter().fold(0, |sum, value| mixed(sum, *value));
            return write!(f, " # {sum}");
        }
        write!(f, " :{}", Spaced { values })
    }
}

// What a call gave, as the first part of a line: a refusal's number, 0 if there is none, a moved count, and an answer.
ghost use Rattle.std.specs.Prelude.{◌≡◌, None, Some};

use answers::Sight;
use queue::{Refusal, Runs, Span};
use std::cmp::Ordering;
use std::fmt;

// Values, each after a space.
#[derive(Drop)]
pub struct Spaced<'v, T> {
    pub values: &'v [T],
}

impl<T: fmt::Display> fmt::Display for Spaced<'_, T> {
    fn fmt<W: fmt::Write>(&self, f: &mut fmt::Formatter<W>) -> fmt::Result {
        for value in self.values {
            write!(f, " {value}")?;
        }
        Ok(())
    }
}

// What there is to say behind the moved count: nothing; what a look saw, or what was handed over; a part of the slots;
// how many bytes of an image were written, and all of its target.
#[derive(Clone, Copy)]
pub enum Answer<'s> {
    Nothing,
    Seen(Sight),
    Part(&'s [u32]),
    Image(usize, &'s [u8]),
}

// What a call gave.
#[derive(Clone, Copy)]
pub struct Said<'s> {
    pub refused: Option<Refusal>,
    pub moved: usize,
    pub answer: Answer<'s>,
}

impl<'s> Said<'s> {
    // What is said of an accepted call that moves nothing.
    pub fn accepted(answer: Answer<'s>) -> Said<'s>
        ensures { (result.refused ≡ None) × (result.moved ≡ 0) × (result.answer ≡ answer.entry) }
    {
        Said {
            refused: None,
            moved: 0,
            answer,
        }
    }

    // What is said of a refused call, which moves nothing.
    pub fn refused(refusal: Refusal, answer: Answer<'s>) -> Said<'s>
        ensures { (result.refused ≡ Some refusal) × (result.moved ≡ 0) × (result.answer ≡ answer.entry) }
    {
        Said {
            refused: Some(refusal),
            moved: 0,
            answer,
        }
    }
}

// Writes what was seen.
fn write_sight<W: fmt::Write>(f: &mut fmt::Formatter<W>, sight: Sight) -> fmt::Result {
    match sight {
        Sight::Element(Some(element)) => write!(f, "= {element}"),
        Sight::Element(None) => write!(f, "none"),
        Sight::Truth(true) => write!(f, "yes"),
        Sight::Truth(false) => write!(f, "no"),
        Sight::Ordered(Ordering::Less) => write!(f, "lt"),
        Sight::Ordered(Ordering::Equal) => write!(f, "eq"),
        Sight::Ordered(Ordering::Greater) => write!(f, "gt"),
        Sight::Spot(Ok(position)) => write!(f, "found {position}"),
        Sight::Spot(Err(position)) => write!(f, "place {position}"),
        Sight::Count(count) => write!(f, "count {count}"),
        Sight::Ranges(Runs { front, back }) => {
            write!(
                f,
                "runs {} {} {} {}",
                front.start, front.end, back.start, back.end
            )
        }
    }
}

impl fmt::Display for Answer<'_> {
    fn fmt<W: fmt::Write>(&self, f: &mut fmt::Formatter<W>) -> fmt::Result {
        match *self {
            Answer::Nothing => write!(f, "."),
            Answer::Seen(sight) => write_sight(f, sight),
            Answer::Part(values) => write!(f, "part {}{}", values.len(), Spaced { values }),
            Answer::Image(count, values) => write!(f, "count {count} bytes{}", Spaced { values }),
        }
    }
}

impl fmt::Display for Said<'_> {
    fn fmt<W: fmt::Write>(&self, f: &mut fmt::Formatter<W>) -> fmt::Result {
        let refusal = self.refused.map_or(0, Refusal::number);
        write!(f, "{refusal} {} {}", self.moved, self.answer)
    }
}

// The answers of the calls that change a list or a record. The caller's record
// is changed where it stands, and what is said beside it fits two registers.
// A refused call stores no word.
ghost use Rattle.std.proofs.Math.Option.{none};
ghost use Rattle.std.specs.Prelude.{◌≡◌};
ghost use Rattle.queue.specs.Answers.{number_of};
ghost use Rattle.elements.specs.Answers.{given};
ghost use Rattle.replies.specs.InC.{said, element_in_c};
ghost use Rattle.replies.specs.Crossed.{change_in_c, handed_in_c, paired_in_c};
ghost use Rattle.replies.specs.Replies.{of_reply};

use super::records::{RECORD, Stored};
use elements::Handed;
use queue::{Change, Pair, Refusal};

// What such a call says: `refused` is the refusal number, or 0;
// `handed` is 1 where `number` was handed over, else both are 0.
#[repr(C)]
#[derive(Clone, Copy)]
pub struct Reply {
    pub refused: u16,
    pub handed: u16,
    pub number: u32,
    pub moved: usize,
}

// An element as it crosses: 1 and the number, or 0 and 0.
fn crossing(number: Option<u32>) -> (u16, u32)
    ensures { result ≡ element_in_c (given number) }
{
    number.map_or((0, 0), |number| (1, number))
}

impl Reply {
    // Accepted, and the number is handed over, if there is one.
    fn accept(number: Option<u32>, moved: usize) -> Reply
        ensures { of_reply result ≡ said 0 moved (given number) }
    {
        let (handed, number) = crossing(number);
        Reply {
            refused: 0,
            handed,
            number,
            moved,
        }
    }

    // Refused.
    fn refuse(refusal: Refusal) -> Reply
        ensures { of_reply result ≡ said (number_of refusal) 0 none }
    {
        Reply {
            refused: refusal.number(),
            handed: 0,
            number: 0,
            moved: 0,
        }
    }
}

// Stores the record after a call that hands nothing over, if it was accepted.
pub fn changed<const N: usize, R: Stored<N>>(
    words: &mut [usize; N],
    change: Result<Change<R>, Refusal>,
) -> Reply
    ensures { (of_reply result, words.new) ≡ change_in_c R.words words.old change }
{
    match change {
        Ok(Change { after, moved }) => {
            *words = after.to_words();
            Reply::accept(None, moved)
        }
        Err(refusal) => Reply::refuse(refusal),
    }
}

// Stores the record after a call that can hand an element over, if it was accepted.
pub fn handed<const N: usize, R: Stored<N>>(
    words: &mut [usize; N],
    handed: Result<Handed<R>, Refusal>,
) -> Reply
    ensures { (of_reply result, words.new) ≡ handed_in_c R.words words.old handed }
{
    match handed {
        Ok(
            Handed {
                number,
                after,
                moved,
            },
        ) => {
            *words = after.to_words();
            Reply::accept(number, moved)
        }
        Err(refusal) => Reply::refuse(refusal),
    }
}

// Stores both records after a call on two queues, if it was accepted.
pub fn paired(
    q: &mut [usize; RECORD],
    other: &mut [usize; RECORD],
    pair: Result<Change<Pair>, Refusal>,
) -> Reply
    ensures { (of_reply result, q.new, other.new) ≡ paired_in_c q.old other.old pair }
{
    match pair {
        Ok(Change { after, moved }) => {
            *q = after.queue.to_words();
            *other = after.other.to_words();
            Reply::accept(None, moved)
        }
        Err(refusal) => Reply::refuse(refusal),
    }
}

// The answers of the calls that only look and store what they saw: a walk by value, or the places of two runs.
ghost use Rattle.std.specs.Prelude.{◌≡◌};
ghost use Rattle.queue.specs.Looks.{seen};
ghost use Rattle.replies.specs.InC.{look_in_c};
ghost use Rattle.replies.specs.Crossed.{stepped_in_c};
ghost use Rattle.replies.specs.Replies.{of_found_reply};

use super::looks::FoundReply;
use super::records::{Stored, WALK};
use elements::Step;
use queue::Refusal;

// Stores what a look answered, if it was not refused, and gives the refusal number, or 0.
pub fn looked<const N: usize, R: Stored<N>>(
    words: &mut [usize; N],
    answer: Result<R, Refusal>,
) -> u16
    ensures { (result, words.new) ≡ look_in_c R.words words.old (seen answer) }
{
    match answer {
        Ok(record) => {
            *words = record.to_words();
            0
        }
        Err(refusal) => refusal.number(),
    }
}

// Stores the walk after `walk_next` and `walk_next_back`, if the step was accepted.
pub fn stepped(w: &mut [usize; WALK], step: Result<Step, Refusal>) -> FoundReply
    ensures { (of_found_reply result, w.new) ≡ stepped_in_c w.old step }
{
    match step {
        Ok(step) => {
            *w = step.walk.to_words();
            FoundReply::from(Ok(step.number))
        }
        Err(refusal) => FoundReply::from(Err(refusal)),
    }
}

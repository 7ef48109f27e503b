// The calls for C and Rust that make a queue, empty or of a saved image, and the one that saves it. What crosses is
// said in `replies`.
#![tactic(auto, using(replies::proofs::Crossing::crossing))]

ghost use Rattle.std.specs.Prelude.{◌≡◌};
ghost use Rattle.rules.specs.Makes.{fresh, read_image};
ghost use Rattle.replies.specs.InC.{make_told_in_c};
ghost use Rattle.replies.specs.Records.{rec_in};
ghost use Rattle.replies.specs.Replies.{of_count_reply, of_reply};
ghost use Rattle.exports_images.specs.Images.{writing_told_in_c};

use replies::{CountReply, RECORD, Reply, changed, deque_in};

// An empty queue over lent slots.
#[unsafe(no_mangle)]
pub extern "C" fn scorebucket_fresh(slots: &[u32], q: &mut [usize; RECORD]) -> Reply
    ensures { (of_reply result, q.new, slots.now)
        ≡ make_told_in_c q.old (fresh slots.now) }
{
    changed(q, elements::fresh(slots))
}

// Reads an image into bare slots, and makes the record of its elements.
#[unsafe(no_mangle)]
pub extern "C" fn scorebucket_read_image(
    slots: &mut [u32],
    q: &mut [usize; RECORD],
    bytes: &[u8],
) -> Reply
    ensures { (of_reply result, q.new, slots.new)
        ≡ make_told_in_c q.old (read_image slots.old bytes.now) }
{
    changed(q, images::read_image(slots, bytes))
}

// Writes the image of a queue into the first bytes of `target`, and keeps the later ones.
#[unsafe(no_mangle)]
pub extern "C" fn scorebucket_write_image(
    slots: &[u32],
    q: &[usize; RECORD],
    target: &mut [u8],
) -> CountReply
    ensures { (of_count_reply result, target.new)
        ≡ writing_told_in_c slots.now (rec_in q.now) target.old }
{
    images::write_image(slots, deque_in(q), target).into()
}

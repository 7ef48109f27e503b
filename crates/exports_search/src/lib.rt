// The calls for C and Rust that search by halving. What crosses is said in `replies`.
#![tactic(auto)]

ghost use Rattle.std.specs.Prelude.{◌≡◌};
ghost use Rattle.rules.specs.Search.{search_for};
ghost use Rattle.queue.specs.Answers.{rec_of};
ghost use Rattle.queue.specs.Looks.{seen};
ghost use Rattle.replies.specs.InC.{count_in_c, spot_in_c};
ghost use Rattle.replies.specs.Kinds.{test_in};
ghost use Rattle.replies.specs.Records.{rec_in};
ghost use Rattle.replies.specs.Replies.{of_count_reply, of_search_reply};
ghost use Rattle.exports_search.specs.Kinds.{partition_tested};

use queue::{Deque, Refusal};
use replies::{CountReply, RECORD, SearchReply, deque_in, test_of_kind};

// How many elements of a list that is parted by the test of that kind meet it. Where there is no such test, 1 and 2 are
// asked as ever, then it is 3.
#[tactic(auto, unfolding(crate::specs::Kinds::partition_tested))]
fn partition_point(slots: &[u32], q: Deque, kind: u32, k: u32) -> Result<usize, Refusal>
    ensures { seen result ≡ partition_tested slots.now (rec_of q) (test_in kind k) }
{
    let Some(test) = test_of_kind(kind, k) else {
        queue::check(slots.len(), q)?;
        return Err(Refusal::Position);
    };
    search::partition_point(slots, q, test)
}

// Where x stands in the queue, or where to insert it.
#[unsafe(no_mangle)]
pub extern "C" fn scorebucket_binary_search(
    slots: &[u32],
    q: &[usize; RECORD],
    x: u32,
) -> SearchReply
    ensures { of_search_reply result ≡ spot_in_c (search_for slots.now (rec_in q.now) x) }
{
    search::binary_search(slots, deque_in(q), x).into()
}

// How many elements of a list that is parted by the test meet it.
#[unsafe(no_mangle)]
pub extern "C" fn scorebucket_partition_point(
    slots: &[u32],
    q: &[usize; RECORD],
    kind: u32,
    k: u32,
) -> CountReply
    ensures { of_count_reply result
        ≡ count_in_c (partition_tested slots.now (rec_in q.now) (test_in kind k)) }
{
    partition_point(slots, deque_in(q), kind, k).into()
}

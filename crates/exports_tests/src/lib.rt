// The calls for C and Rust that change a queue by a test of its elements. What crosses is said in `replies`.
#![tactic(auto, using(replies::proofs::Crossing::crossing))]

ghost use Rattle.std.specs.Prelude.{◌≡◌};
ghost use Rattle.conditions.specs.Tests.{test_of};
ghost use Rattle.rules.specs.Ends.{pop_front_if, pop_back_if};
ghost use Rattle.rules.specs.Middle.{retain};
ghost use Rattle.rules.specs.Outcome.{told};
ghost use Rattle.elements.specs.Answers.{of_handed};
ghost use Rattle.queue.specs.Answers.{of_change, rec_of};
ghost use Rattle.queue.specs.Looks.{look_of};
ghost use Rattle.replies.specs.InC.{told_in_c};
ghost use Rattle.replies.specs.Kinds.{test_in};
ghost use Rattle.replies.specs.Records.{rec_in};
ghost use Rattle.replies.specs.Replies.{of_reply};
ghost use Rattle.exports_tests.specs.Kinds.{do_tested, known_test, refused_kind};

use conditions::Test;
use elements::Handed;
use queue::{Change, Deque, Refusal};
use replies::{RECORD, Reply, changed, deque_in, handed, test_of_kind};

// The test of a kind. Where there is none, 1, 2 and 6 are asked as ever, then it is 3.
#[tactic(auto, using(rules::proofs::Refusals::change_go), unfolding(queue::specs::Answers::number_of))]
fn known_test(cap: usize, q: Deque, kind: u32, k: u32) -> Result<Test, Refusal>
    ensures { look_of test_of result ≡ known_test (test_in kind k) (refused_kind cap (rec_of q)) }
{
    if let Some(test) = test_of_kind(kind, k) {
        return Ok(test);
    }
    queue::check_change(cap, q)?;
    Err(Refusal::Position)
}

// Hands the first element over, if it meets the test of that kind.
#[tactic(auto, unfolding(crate::specs::Kinds::do_tested, rules::specs::Outcome::unchanged))]
fn pop_front_if(slots: &[u32], q: Deque, kind: u32, k: u32) -> Result<Handed<Deque>, Refusal>
    ensures { (of_handed q result, slots.now)
        ≡ told (do_tested slots.now (rec_of q) (test_in kind k) pop_front_if) }
{
    let test = known_test(slots.len(), q, kind, k)?;
    ends::pop_front_if(slots, q, test)
}

// Hands the last element over, if it meets the test of that kind.
#[tactic(auto, unfolding(crate::specs::Kinds::do_tested, rules::specs::Outcome::unchanged))]
fn pop_back_if(slots: &[u32], q: Deque, kind: u32, k: u32) -> Result<Handed<Deque>, Refusal>
    ensures { (of_handed q result, slots.now)
        ≡ told (do_tested slots.now (rec_of q) (test_in kind k) pop_back_if) }
{
    let test = known_test(slots.len(), q, kind, k)?;
    ends::pop_back_if(slots, q, test)
}

// Keeps, in order, the elements that meet the test of that kind.
#[tactic(auto, unfolding(crate::specs::Kinds::do_tested, rules::specs::Outcome::unchanged))]
fn retain(slots: &mut [u32], q: Deque, kind: u32, k: u32) -> Result<Change<Deque>, Refusal>
    ensures { (of_change q result, slots.new)
        ≡ told (do_tested slots.old (rec_of q) (test_in kind k) retain) }
{
    let test = known_test(slots.len(), q, kind, k)?;
    retains::retain(slots, q, test)
}

// Hands the first element over, if it meets the test.
#[unsafe(no_mangle)]
pub extern "C" fn scorebucket_pop_front_if(
    slots: &[u32],
    q: &mut [usize; RECORD],
    kind: u32,
    k: u32,
) -> Reply
    ensures { (of_reply result, q.new, slots.now)
        ≡ told_in_c q.old
        (do_tested slots.now (rec_in q.old) (test_in kind k) pop_front_if) }
{
    let before = deque_in(q);
    handed(q, pop_front_if(slots, before, kind, k))
}

// Hands the last element over, if it meets the test.
#[unsafe(no_mangle)]
pub extern "C" fn scorebucket_pop_back_if(
    slots: &[u32],
    q: &mut [usize; RECORD],
    kind: u32,
    k: u32,
) -> Reply
    ensures { (of_reply result, q.new, slots.now)
        ≡ told_in_c q.old
        (do_tested slots.now (rec_in q.old) (test_in kind k) pop_back_if) }
{
    let before = deque_in(q);
    handed(q, pop_back_if(slots, before, kind, k))
}

// Keeps, in order, the elements that meet the test.
#[unsafe(no_mangle)]
pub extern "C" fn scorebucket_retain(
    slots: &mut [u32],
    q: &mut [usize; RECORD],
    kind: u32,
    k: u32,
) -> Reply
    ensures { (of_reply result, q.new, slots.new)
        ≡ told_in_c q.old (do_tested slots.old (rec_in q.old) (test_in kind k) retain) }
{
    let before = deque_in(q);
    changed(q, retain(slots, before, kind, k))
}

// `retain`: the elements that meet a test are moved down over those that do not. None
// is swapped, so a slot that holds no element after the call keeps its old value.
#![tactic(auto)]

ghost use Rattle.std.specs.Prelude.{◌≡◌, ◌≤◌, ◌<◌, length};
ghost use Rattle.std.specs.List.{prefix_len};
ghost use Rattle.rules.specs.Conditions.{meets, those};
ghost use Rattle.rules.specs.Middle.{retain};
ghost use Rattle.rules.specs.Outcome.{told, do_rule};
ghost use Rattle.rules.specs.Places.{place};
ghost use Rattle.rules.specs.Records.{held};
ghost use Rattle.rules.specs.Refusals.{most_slots, on_queue};
ghost use Rattle.rules.specs.Slots.{list_of, lay};
ghost use Rattle.conditions.specs.Tests.{test_of};
ghost use Rattle.queue.specs.Answers.{rec_of, of_change};

use conditions::Test;
use places::WrappedIndex;
use queue::{Change, Deque, Refusal};

// How many elements are sifted at a time. A longer block is hardly faster,
// and its array, which each call clears, costs a short queue more.
const BLOCK: usize = 64;

// How many elements of a part stand before the first rejected one; all of them where none is rejected.
fn leading_in(part: &[u32], test: Test) -> usize
    ensures value { result ≡ prefix_len (meets (test_of test)) part.now }
    ensures few { result ≤ length part.now }
{
    part.iter()
        .take_while(|&&x| conditions::meets(test, x))
        .count()
}

// Stage 1: how many elements stand before the first rejected one; `len` where none is rejected.
// Stays: two looks at a run, the back run's where the front run passed whole. One chain takes three times as long.
fn before_first_rejected(slots: &[u32], q: Deque, test: Test) -> usize
    requires { on_queue (length slots.now) (rec_of q) 0 ≡ 0 }
    ensures value { result ≡ prefix_len (meets (test_of test)) (held slots.now (rec_of q)) }
    ensures few { result ≤ q.len }
{
    let runs = runs::whole_runs(slots, q);
    let passed = leading_in(runs.front, test);
    if passed < runs.front.len() {
        return passed;
    }
    passed + leading_in(runs.back, test)
}

// The elements of a part that meet the test, in order, as the front of `held`, where they are stored.
// Each element is stored and only the kept are counted: so the loop has no branch that the test decides.
fn sift<'a>(part: &[u32], test: Test, held: &'a mut [u32]) -> &'a [u32]
    requires { length part.now ≤ length held.old }
    ensures value { result.now ≡ those (meets (test_of test)) part.now }
    ensures few { length result.now ≤ length part.now }
{
    let mut kept = 0;
    for &x in part {
        held[kept] = x;
        kept += usize::from(conditions::meets(test, x));
    }
    &held[..kept]
}

// Stage 2: of the `len` elements behind `to`, T, stores those that meet the test from there
// on, and counts them. It goes part by part, none of which runs past the last slot. A
// part's kept are no more than its elements, so they never reach what is still to be read.
fn move_kept(slots: &mut [u32], to: WrappedIndex, len: usize, test: Test) -> usize
    requires { (to.0 < length slots.old) × (len < length slots.old) × (length slots.old ≤ most_slots) }
    ensures value { result
        ≡ length
        (those (meets (test_of test))
        (list_of slots.old (place (length slots.old) to.0 1) len)) }
    ensures few { result ≤ len }
    ensures slots_after { slots.new
        ≡ lay slots.old to.0
        (those (meets (test_of test))
        (list_of slots.old (place (length slots.old) to.0 1) len)) }
{
    // b and d are rejected, and b is the first: C and E move
    //
    //                  T
    // 1 [d E _ _ _ _ A b C]
    // 2 [d E _ _ _ _ A C C]
    // 3 [d E _ _ _ _ A C E]
    //
    let cap = slots.len();
    let mut held = [0; BLOCK];
    let mut from = places::wrap_add(cap, to, 1);
    let mut into = to;
    let mut left = len;
    let mut moved = 0;
    while left > 0 {
        let start = from.as_index();
        let n = left.min(cap - start).min(BLOCK);
        let kept = sift(&slots[start..start + n], test, &mut held);
        copies::copy_slice(slots, into, kept);
        into = places::wrap_add(cap, into, kept.len());
        from = places::wrap_add(cap, from, n);
        left -= n;
        moved += kept.len();
    }
    moved
}

// Keeps, in order, the elements that meet the test.
pub fn retain(slots: &mut [u32], q: Deque, test: Test) -> Result<Change<Deque>, Refusal>
    ensures { (of_change q result, slots.new) ≡ told (do_rule slots.old (rec_of q) (retain (test_of test))) }
{
    let cap = slots.len();
    queue::check_change(cap, q)?;
    let kept = before_first_rejected(slots, q, test);
    if kept == q.len {
        return Ok(Change { after: q, moved: 0 });
    }
    let to = places::wrap_add(cap, q.head, kept);
    let moved = move_kept(slots, to, q.len - kept - 1, test);
    Ok(Change {
        after: queue::stepped(q, q.head, kept + moved),
        moved,
    })
}

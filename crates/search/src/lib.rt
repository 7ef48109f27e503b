// Search by halving, in one of the two runs.
#![tactic(auto)]

mod in_runs; // in_runs.rt: the search of a list in two runs, of which no queue is known

ghost use Rattle.std.specs.Prelude.{◌≡◌};
ghost use Rattle.rules.specs.Search.{search_for, partition_by};
ghost use Rattle.conditions.specs.Tests.{test_of};
ghost use Rattle.queue.specs.Answers.{rec_of};
ghost use Rattle.queue.specs.Looks.{look_of, seen, spot_of};

use conditions::Test;
pub use in_runs::{point_runs, search_runs};
use queue::{Deque, Refusal};

// Where x stands in the queue, or where to insert it.
pub fn binary_search(slots: &[u32], q: Deque, x: u32) -> Result<Result<usize, usize>, Refusal>
    ensures { look_of spot_of result ≡ search_for slots.now (rec_of q) x }
{
    queue::check(slots.len(), q)?;
    let list = runs::whole_runs(slots, q);
    Ok(search_runs(list, x))
}

// How many elements of a list that is parted by the test meet it.
pub fn partition_point(slots: &[u32], q: Deque, test: Test) -> Result<usize, Refusal>
    ensures { seen result ≡ partition_by slots.now (rec_of q) (test_of test) }
{
    queue::check(slots.len(), q)?;
    let list = runs::whole_runs(slots, q);
    Ok(point_runs(list, test))
}

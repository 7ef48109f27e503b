// Search by halving of a list in two runs, a front run and a back run behind it.
ghost use Rattle.std.specs.Prelude.{length, ◌≡◌, ◌≤◌};
ghost use Rattle.rules.specs.Conditions.{meets};
ghost use Rattle.rules.specs.Search.{place_in, spot_of as spot_in_runs, point_of};
ghost use Rattle.conditions.specs.Tests.{test_of};
ghost use Rattle.queue.specs.Looks.{spot_of};
ghost use Rattle.search.specs.Handed.{begins, handed_run, counted_from};

use conditions::Test;
use runs::TwoRuns;

// Whether the run has a first element that meets the test.
fn begins_with(run: &[u32], test: Test) -> bool
    ensures { result ≡ begins (meets (test_of test)) run.now }
{
    run.first().is_some_and(|v| conditions::meets(test, *v))
}

// The run in which the halving continues: elements that meet the test count as less.
fn handed_run<'a>(front: &'a [u32], back: &'a [u32], test: Test) -> &'a [u32]
    ensures { result.now ≡ handed_run (meets (test_of test)) front.now back.now }
{
    if begins_with(back, test) { back } else { front }
}

// What the places in that run count on from.
fn counted_from(front: &[u32], back: &[u32], test: Test) -> usize
    ensures { result ≡ counted_from (meets (test_of test)) front.now back.now }
{
    if begins_with(back, test) {
        front.len()
    } else {
        0
    }
}

// Where the halving within a run ends.
// Stays: by a rule of the project the place comes by break; and what is answered of any list, sorted or not, is said by
// these very steps, where the library's partition_point takes others.
fn place_in(run: &[u32], test: Test) -> usize
    ensures { (result ≤ length run.now) × (result ≡ place_in (meets (test_of test)) run.now) }
{
    let mut low = 0;
    let mut high = run.len();
    let place = loop {
        if low >= high {
            break low;
        }
        let middle = low + (high - low) / 2;
        if conditions::meets(test, run[middle]) {
            low = middle + 1;
        } else {
            high = middle;
        }
    };
    place
}

// Where x stands in the two runs, or where to insert it.
pub fn search_runs(list: TwoRuns, x: u32) -> Result<usize, usize>
    ensures { spot_of result ≡ spot_in_runs x list.entry.front.now list.entry.back.now }
{
    let TwoRuns { front, back } = list;
    if begins_with(back, Test::Equal(x)) {
        return Ok(front.len());
    }
    let less = Test::Below(x);
    let run = handed_run(front, back, less);
    let low = place_in(run, less);
    let at = counted_from(front, back, less) + low;
    if run.get(low) == Some(&x) {
        Ok(at)
    } else {
        Err(at)
    }
}

// How many elements of the two runs meet the test, if it parts their list.
pub fn point_runs(list: TwoRuns, test: Test) -> usize
    ensures { result ≡ point_of (meets (test_of test)) list.entry.front.now list.entry.back.now }
{
    let TwoRuns { front, back } = list;
    let run = handed_run(front, back, test);
    let low = place_in(run, test);
    counted_from(front, back, test) + low
}

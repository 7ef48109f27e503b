// Lists in two runs, a front run and a back run behind it: whether a number stands in one, and how two of them stand
// to each other.
ghost use Rattle.std.specs.Prelude.{length, ◌≡◌, ◌≤◌};
ghost use Rattle.rules.specs.Looks.{has, same, order};
ghost use Rattle.queue.specs.Looks.{order_of};
ghost use Rattle.runs.specs.Lists.{listed};
ghost use Rattle.comparisons.specs.Stretches.{joined, CutAlike};

use runs::TwoRuns;
use std::cmp::Ordering;

// Whether x stands in one of the two runs: the first hit ends the walk over both at once.
// Stays: by a rule of the project contains leaves nested run and element loops by a label, and so asks no `contains` of
// the library.
pub fn stands_in(runs: TwoRuns, x: u32) -> bool
    ensures { result ≡ has x (listed runs.entry) }
{
    'walk: {
        for run in [runs.front, runs.back] {
            for v in run {
                if *v == x {
                    break 'walk true;
                }
            }
        }
        false
    }
}

// A list in three stretches, one behind the other.
type Stretches<'a> = [&'a [u32]; 3];

// Two lists cut at the same places, as far as both go: one whose front run is the shorter, or no longer, and the other.
//
//   short  |---- front ----|------- back --------|
//   long   |-------- front --------|--- back ----|
//          |     start     |middle |     end     |
fn cut_shorter<'a>(short: TwoRuns<'a>, long: TwoRuns<'a>) -> (Stretches<'a>, Stretches<'a>)
    requires { length short.front.now ≤ length long.front.now }
    ensures short { joined result.0 ≡ listed short.entry }
    ensures long { joined result.1 ≡ listed long.entry }
    ensures cut { CutAlike result.0 result.1 }
{
    let (start, middle) = long.front.split_at(short.front.len());
    let (back, end) = short.back.split_at(middle.len().min(short.back.len()));
    ([short.front, back, end], [start, middle, long.back])
}

// Two lists cut at the same places, as far as both go.
#[tactic(auto, using(crate::proofs::Stretches::cut_turned))]
fn cut_alike<'a>(ours: TwoRuns<'a>, theirs: TwoRuns<'a>) -> (Stretches<'a>, Stretches<'a>)
    ensures ours { joined result.0 ≡ listed ours.entry }
    ensures theirs { joined result.1 ≡ listed theirs.entry }
    ensures cut { CutAlike result.0 result.1 }
{
    if ours.front.len() <= theirs.front.len() {
        return cut_shorter(ours, theirs);
    }
    let (theirs, ours) = cut_shorter(theirs, ours);
    (ours, theirs)
}

// Whether the two lists are the same. Of lists of different lengths no element is looked at.
#[tactic(auto, using(crate::proofs::Stretches::same_stretches, crate::proofs::Stretches::runs_differ))]
pub fn same_runs(ours: TwoRuns, theirs: TwoRuns) -> bool
    ensures { result ≡ same (listed ours.entry) (listed theirs.entry) }
{
    let len = ours.front.len() + ours.back.len();
    let other_len = theirs.front.len() + theirs.back.len();
    if len != other_len {
        return false;
    }
    let (ours, theirs) = cut_alike(ours, theirs);
    ours == theirs
}

// How the first list stands to the second in lexicographic order.
#[tactic(auto, using(crate::proofs::Stretches::order_stretches))]
pub fn order_runs(ours: TwoRuns, theirs: TwoRuns) -> Ordering
    ensures { order_of result ≡ order (listed ours.entry) (listed theirs.entry) }
{
    let (ours, theirs) = cut_alike(ours, theirs);
    ours.cmp(&theirs)
}

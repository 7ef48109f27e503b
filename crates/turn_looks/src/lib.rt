// The calls that only look, by their value. What they saw is told in one form.
#![tactic(auto)]

ghost use Rattle.std.specs.Prelude.{◌≡◌};
ghost use Rattle.rules.specs.Asks.{answered, answered_both};
ghost use Rattle.queue.specs.Answers.{rec_of};
ghost use Rattle.queue.specs.Looks.{look_of};
ghost use Rattle.answers.specs.Sights.{of_sight};
ghost use Rattle.turn_calls.specs.Calls.{ask_both_of, ask_of};

use answers::Sight;
use queue::{Deque, Refusal};
use turn_calls::{Ask, AskBoth};

// Looks at one queue.
pub fn ask(slots: &[u32], q: Deque, ask: Ask) -> Result<Sight, Refusal>
    ensures { look_of of_sight result ≡ answered slots.now (rec_of q) (ask_of ask) }
{
    match ask {
        Ask::Get(i) => ends::get(slots, q, i).map(Sight::Element),
        Ask::Front => ends::front(slots, q).map(Sight::Element),
        Ask::Back => ends::back(slots, q).map(Sight::Element),
        Ask::Contains(x) => comparisons::contains(slots, q, x).map(Sight::Truth),
        Ask::SliceRanges(start, end) => runs::slice_ranges(slots, q, start, end).map(Sight::Ranges),
        Ask::BinarySearch(x) => search::binary_search(slots, q, x).map(Sight::Spot),
        Ask::PartitionPoint(test) => search::partition_point(slots, q, test).map(Sight::Count),
    }
}

// Looks at two queues.
pub fn ask_both(
    slots: &[u32],
    q: Deque,
    other_slots: &[u32],
    other: Deque,
    ask: AskBoth,
) -> Result<Sight, Refusal>
    ensures { look_of of_sight result ≡ answered_both slots.now (rec_of q) other_slots.now (rec_of other)
        (ask_both_of ask) }
{
    match ask {
        AskBoth::Eq => comparisons::eq(slots, q, other_slots, other).map(Sight::Truth),
        AskBoth::Cmp => comparisons::cmp(slots, q, other_slots, other).map(Sight::Ordered),
    }
}

// The straight copy alone, for the benchmark: what a call in the middle takes beside it is the call's own. It stands in
// an archive of the benchmark's (sh tools/native.sh . measured), and not in that of the calls.
#![tactic(auto)]

ghost use Rattle.std.specs.Prelude.{◌≡◌, ◌+◌, ◌≤◌, ◌<◌, length, IsTrue, OnOk};
ghost use Rattle.rules.specs.Refusals.{most_slots};
ghost use Rattle.queue.specs.Answers.{number_in};
ghost use Rattle.measured.specs.Copies.{in_slots, on_copy, copied_times, copy_told};

use places::WrappedIndex;
use queue::Refusal;

// Whether the n slots from `start` on are among `cap`; `start` is to be one of them, even if n is 0.
#[tactic(auto, unfolding(crate::specs::Copies::in_slots))]
fn in_slots(cap: usize, start: usize, n: usize) -> bool
    ensures tells { result ≡ in_slots cap start n }
    ensures fits { IsTrue result → (start < cap) × (start + n ≤ cap) }
{
    start < cap && n <= cap - start
}

// The tests of the slots and of the two stretches.
fn check_copy(cap: usize, src: usize, dst: usize, n: usize) -> Result<(), Refusal>
    ensures number { number_in result ≡ on_copy cap src dst n }
    ensures fits { OnOk result ((cap ≤ most_slots) × (src < cap) × (dst < cap) × (src + n ≤ cap) × (dst + n ≤ cap)) }
{
    if cap > rules::most_slots() {
        return Err(Refusal::Slots);
    }
    if in_slots(cap, src, n) && in_slots(cap, dst, n) {
        return Ok(());
    }
    Err(Refusal::Position)
}

// Copies the n slots from `src` on to `dst` so many times over.
#[tactic(auto, unfolding(crate::specs::Copies::copied_times))]
fn copy_times(slots: &mut [u32], src: WrappedIndex, dst: WrappedIndex, n: usize, times: usize)
    requires src_in_bounds { (src.0 < length slots.old) × (dst.0 < length slots.old) × (length slots.old ≤ most_slots) }
    requires n_in_bounds { (src.0 + n ≤ length slots.old) × (dst.0 + n ≤ length slots.old) }
    ensures { slots.new ≡ copied_times times slots.old src.0 dst.0 n }
{
    for _ in 0..times {
        stretches::copy(slots, src, dst, n);
    }
}

// Copies the n slots from `src` on to `dst`, which may overlap, so many times
// over. Gives 1 for too many slots, 3 where a stretch is out of them, else 0.
#[unsafe(no_mangle)]
pub extern "C" fn scorebucket_copy(
    slots: &mut [u32],
    src: usize,
    dst: usize,
    n: usize,
    times: usize,
) -> u16
    ensures { (result, slots.new) ≡ copy_told slots.old src dst n times }
{
    if let Err(refusal) = check_copy(slots.len(), src, dst, n) {
        return refusal.number();
    }
    let from = WrappedIndex::from_arbitrary_number(src);
    let to = WrappedIndex::from_arbitrary_number(dst);
    copy_times(slots, from, to, n, times);
    0
}

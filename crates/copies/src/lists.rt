// Lists laid into the slots from a place on, past the last slot into the first ones. What fits before the end
// goes into the part of the slots that is lent from the place on, and the rest into the slots from the first on.
ghost use Rattle.std.specs.Prelude.{◌≡◌, ◌-◌, ◌≤◌, ◌<◌, reverse, length, replicate};
ghost use Rattle.rules.specs.Refusals.{most_slots};
ghost use Rattle.rules.specs.Slots.{lay};

use places::WrappedIndex;
use stretches::{copy_in, copy_in_reversed, fill};

// Copies src into the slots from dst on, where it runs past the last slot.
fn copy_slice_apart(slots: &mut [u32], dst: WrappedIndex, src: &[u32])
    requires dst_in_bounds { (dst.0 < length slots.old) × (length src.now ≤ length slots.old)
        × (length slots.old ≤ most_slots) }
    requires src_wraps { length slots.old - dst.0 < length src.now }
    ensures { slots.new ≡ lay slots.old dst.0 src.now }
{
    let w = dst.as_index();
    let head_room = slots.len() - w;
    copy_in(&mut slots[w..], &src[..head_room]);
    copy_in(slots, &src[head_room..]);
}

// Copies src into the slots from dst on.
pub fn copy_slice(slots: &mut [u32], dst: WrappedIndex, src: &[u32])
    requires { (dst.0 < length slots.old) × (length src.now ≤ length slots.old)
        × (length slots.old ≤ most_slots) }
    ensures { slots.new ≡ lay slots.old dst.0 src.now }
{
    let w = dst.as_index();
    if src.len() <= slots.len() - w {
        copy_in(&mut slots[w..], src);
    } else {
        copy_slice_apart(slots, dst, src);
    }
}

// Copies src into the slots from dst on, its last element first.
pub fn copy_slice_reversed(slots: &mut [u32], dst: WrappedIndex, src: &[u32])
    requires { (dst.0 < length slots.old) × (length src.now ≤ length slots.old) }
    ensures { slots.new ≡ lay slots.old dst.0 (reverse src.now) }
{
    let w = dst.as_index();
    let head_room = slots.len() - w;
    let n = src.len();
    if n <= head_room {
        copy_in_reversed(&mut slots[w..], src);
    } else {
        let left = n - head_room;
        copy_in_reversed(&mut slots[w..], &src[left..]);
        copy_in_reversed(slots, &src[..left]);
    }
}

// Stores v in the len slots from dst on.
pub fn fill_slots(slots: &mut [u32], dst: WrappedIndex, len: usize, v: u32)
    requires { (dst.0 < length slots.old) × (len ≤ length slots.old) }
    ensures { slots.new ≡ lay slots.old dst.0 (replicate len v) }
{
    let w = dst.as_index();
    let head_room = slots.len() - w;
    if len <= head_room {
        fill(&mut slots[w..], len, v);
    } else {
        fill(&mut slots[w..], head_room, v);
        fill(slots, len - head_room, v);
    }
}

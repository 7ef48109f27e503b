// Copies of a stretch of the ring that may run past the last slot and go on in the first.
ghost use Rattle.std.specs.Prelude.{◌≡◌, ◌+◌, ◌≤◌, ◌<◌, length};
ghost use Rattle.rules.specs.Places.{step_back};
ghost use Rattle.rules.specs.Refusals.{most_slots};
ghost use Rattle.rules.specs.Slots.{copied};
ghost use Rattle.copies.specs.Overlap.{OneOverlap, OneWraps};

use places::WrappedIndex;
use stretches::copy;

// Copies where dst is before src, or clear of the len slots from src on: what stands first is copied first.
#[tactic(auto, using(crate::proofs::Overlaps::dst_wraps, crate::proofs::Overlaps::behind))]
fn copy_dst_before_src(slots: &mut [u32], src: WrappedIndex, dst: WrappedIndex, len: usize)
    requires src_in_bounds { (src.0 < length slots.old) × (dst.0 < length slots.old) × (len ≤ length slots.old)
        × (length slots.old ≤ most_slots) }
    requires len_bound { len ≤ step_back (length slots.old) dst.0 src.0 }
    requires one_wraps { OneWraps (length slots.old) src.0 dst.0 len }
    ensures { slots.new ≡ copied slots.old src.0 dst.0 len }
{
    let src_pre_wrap_len = slots.len() - src.as_index();
    let dst_pre_wrap_len = slots.len() - dst.as_index();
    if src_pre_wrap_len >= len {
        // dst before src, src doesn't wrap, dst wraps
        //
        //    S . . .
        // 1 [A A B B _ _ _ C C]
        // 2 [A A B B _ _ _ A A]
        // 3 [B B B B _ _ _ A A]
        //    . .           D .
        //
        copy(slots, src, dst, dst_pre_wrap_len);
        copy(
            slots,
            places::add(src, dst_pre_wrap_len),
            WrappedIndex::zero(),
            len - dst_pre_wrap_len,
        );
    } else if dst_pre_wrap_len >= len {
        // dst before src, src wraps, dst doesn't wrap
        //
        //    . .           S .
        // 1 [C C _ _ _ A A B B]
        // 2 [C C _ _ _ B B B B]
        // 3 [C C _ _ _ B B C C]
        //              D . . .
        //
        copy(slots, src, dst, src_pre_wrap_len);
        copy(
            slots,
            WrappedIndex::zero(),
            places::add(dst, src_pre_wrap_len),
            len - src_pre_wrap_len,
        );
    } else {
        // dst before src, src wraps, dst wraps
        //
        //    . . .         S .
        // 1 [A B C D _ E F G H]
        // 2 [A B C D _ E G H H]
        // 3 [A B C D _ E G H A]
        // 4 [B C C D _ E G H A]
        //    . .         D . .
        //
        let delta = dst_pre_wrap_len - src_pre_wrap_len;
        copy(slots, src, dst, src_pre_wrap_len);
        copy(
            slots,
            WrappedIndex::zero(),
            places::add(dst, src_pre_wrap_len),
            delta,
        );
        copy(
            slots,
            WrappedIndex::from_arbitrary_number(delta),
            WrappedIndex::zero(),
            len - dst_pre_wrap_len,
        );
    }
}

// Copies where src is before dst, which is one of the len slots from src on: what stands last is copied first.
#[tactic(auto, using(crate::proofs::Overlaps::dst_wraps, crate::proofs::Overlaps::ahead))]
fn copy_src_before_dst(slots: &mut [u32], src: WrappedIndex, dst: WrappedIndex, len: usize)
    requires src_in_bounds { (src.0 < length slots.old) × (dst.0 < length slots.old) × (len ≤ length slots.old)
        × (length slots.old ≤ most_slots) }
    requires src_nonzero { (0 < step_back (length slots.old) dst.0 src.0)
        × (step_back (length slots.old) dst.0 src.0 + len ≤ length slots.old) }
    requires one_wraps { OneWraps (length slots.old) src.0 dst.0 len }
    ensures { slots.new ≡ copied slots.old src.0 dst.0 len }
{
    let src_pre_wrap_len = slots.len() - src.as_index();
    let dst_pre_wrap_len = slots.len() - dst.as_index();
    if src_pre_wrap_len >= len {
        // src before dst, src doesn't wrap, dst wraps
        //
        //              S . . .
        // 1 [C C _ _ _ A A B B]
        // 2 [B B _ _ _ A A B B]
        // 3 [B B _ _ _ A A A A]
        //    . .           D .
        //
        copy(
            slots,
            places::add(src, dst_pre_wrap_len),
            WrappedIndex::zero(),
            len - dst_pre_wrap_len,
        );
        copy(slots, src, dst, dst_pre_wrap_len);
    } else if dst_pre_wrap_len >= len {
        // src before dst, src wraps, dst doesn't wrap
        //
        //    . .           S .
        // 1 [A A B B _ _ _ C C]
        // 2 [A A A A _ _ _ C C]
        // 3 [C C A A _ _ _ C C]
        //    D . . .
        //
        copy(
            slots,
            WrappedIndex::zero(),
            places::add(dst, src_pre_wrap_len),
            len - src_pre_wrap_len,
        );
        copy(slots, src, dst, src_pre_wrap_len);
    } else {
        // src before dst, src wraps, dst wraps
        //
        //    . .         S . .
        // 1 [A B C D _ E F G H]
        // 2 [A A B D _ E F G H]
        // 3 [H A B D _ E F G H]
        // 4 [H A B D _ E F F G]
        //    . . .         D .
        //
        let delta = src_pre_wrap_len - dst_pre_wrap_len;
        copy(
            slots,
            WrappedIndex::zero(),
            WrappedIndex::from_arbitrary_number(delta),
            len - src_pre_wrap_len,
        );
        copy(
            slots,
            WrappedIndex::from_arbitrary_number(slots.len() - delta),
            WrappedIndex::zero(),
            delta,
        );
        copy(slots, src, dst, dst_pre_wrap_len);
    }
}

// Copies the len slots from src on to dst, where one of the two runs past the last slot, or both do.
fn wrap_copy_apart(slots: &mut [u32], src: WrappedIndex, dst: WrappedIndex, len: usize)
    requires src_in_bounds { (src.0 < length slots.old) × (dst.0 < length slots.old) × (len ≤ length slots.old)
        × (length slots.old ≤ most_slots) }
    requires one_overlap { OneOverlap (length slots.old) src.0 dst.0 len }
    requires one_wraps { OneWraps (length slots.old) src.0 dst.0 len }
    ensures { slots.new ≡ copied slots.old src.0 dst.0 len }
{
    if src == dst {
        return;
    }
    let after = places::wrap_sub(slots.len(), dst, src.as_index());
    if after.as_index() < len {
        copy_src_before_dst(slots, src, dst, len);
    } else {
        copy_dst_before_src(slots, src, dst, len);
    }
}

// Copies the len slots from src on to dst, where both may run past the last
// slot and go on in the first. At most one stretch of the two overlaps.
#[tactic(auto, unfolding(crate::specs::Overlap::OneWraps))]
pub fn wrap_copy(slots: &mut [u32], src: WrappedIndex, dst: WrappedIndex, len: usize)
    requires src_in_bounds { (src.0 < length slots.old) × (dst.0 < length slots.old) × (len ≤ length slots.old)
        × (length slots.old ≤ most_slots) }
    requires one_overlap { OneOverlap (length slots.old) src.0 dst.0 len }
    ensures { slots.new ≡ copied slots.old src.0 dst.0 len }
{
    if len <= slots.len() - src.as_index() {
        if len <= slots.len() - dst.as_index() {
            // src doesn't wrap, dst doesn't wrap: up or down, it is one copy
            //
            //        S . . .
            // 1 [_ _ A A B B C C _]
            // 2 [_ _ A A A A B B _]
            //            D . . .
            //
            copy(slots, src, dst, len);
        } else {
            wrap_copy_apart(slots, src, dst, len);
        }
    } else {
        wrap_copy_apart(slots, src, dst, len);
    }
}

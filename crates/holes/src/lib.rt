// How the hole between a queue's first and last elements is closed: the shorter side moves.
#![tactic(auto)]

ghost use Rattle.std.specs.Prelude.{◌≡◌, ◌+◌, ◌-◌, ◌≤◌, ◌<◌, length};
ghost use Rattle.rules.specs.Places.{place};
ghost use Rattle.rules.specs.Refusals.{most_slots};
ghost use Rattle.rules.specs.Slots.{copied};
ghost use Rattle.holes.specs.Holes.{closed_hole, shorter_side};

use places::WrappedIndex;

// Where a queue begins once its elements have moved, and how many did.
#[derive(Clone, Copy)]
pub struct Settled {
    pub head: WrappedIndex,
    pub moved: usize,
}

// Moves `n` elements of a queue from position `from` to position `to`.
pub fn move_elements(slots: &mut [u32], head: WrappedIndex, from: usize, to: usize, n: usize)
    requires { (head.0 < length slots.old) × (from + n ≤ length slots.old) × (to + n ≤ length slots.old)
        × (length slots.old ≤ most_slots) }
    ensures { slots.new
        ≡ copied slots.old (place (length slots.old) head.0 from)
        (place (length slots.old) head.0 to) n }
{
    let cap = slots.len();
    let src = places::wrap_add(cap, head, from);
    let dst = places::wrap_add(cap, head, to);
    copies::wrap_copy(slots, src, dst, n);
}

// A hole in a queue: `len` slots between its elements, which are to go. In front of it stand the first
// `start` elements and room for `new` ones, behind it the last `tail`; the queue begins at `head`.
#[derive(Clone, Copy)]
pub struct Hole {
    pub head: WrappedIndex,
    pub start: usize,
    pub new: usize,
    pub len: usize,
    pub tail: usize,
}

// The side of a hole that moves: `n` elements, which stand from
// `src` on and go to `dst`; then the queue begins at `head`.
#[derive(Clone, Copy)]
struct Shorter {
    src: WrappedIndex,
    dst: WrappedIndex,
    n: usize,
    head: WrappedIndex,
}

impl Hole {
    // The side that moves when `close_hole` closes the hole: the shorter one.
    //
    // H = head, h = the first elements, n = room for the new ones, d = the hole, t = the tail
    fn shorter_side(self, cap: usize) -> Shorter
        requires { (self.head.0 < cap) × (self.start + self.new + self.len + self.tail ≤ cap) × (cap ≤ most_slots) }
        ensures { record { from = result.src.0; to = result.dst.0; many = result.n; head = result.head.0 }
            ≡ shorter_side cap self.head.0 self.start self.new self.len self.tail }
    {
        let before = self.start + self.new;
        if before < self.tail {
            // The earlier side is the shorter: it moves, and the head with it.
            //       H
            // [ . . h h n d d d t t t t . . ]
            //             H
            // [ . . . . . h h n t t t t . . ]
            let next = places::wrap_add(cap, self.head, self.len);
            return Shorter {
                src: self.head,
                dst: next,
                n: self.start,
                head: next,
            };
        }
        // The tail is the shorter, or both are as long: it moves, and the head stays.
        //       H
        // [ . . h h h n d d d t t . . . ]
        //       H
        // [ . . h h h n t t . . . . . . ]
        Shorter {
            src: places::wrap_add(cap, self.head, before + self.len),
            dst: places::wrap_add(cap, self.head, before),
            n: self.tail,
            head: self.head,
        }
    }
}

// Closes a hole. The caller lays the new elements once it is closed: since they go
// straight to their place, only the first `start` move where the earlier side does.
pub fn close_hole(slots: &mut [u32], hole: Hole) -> Settled
    requires { (hole.head.0 ≤ length slots.old - 1)
        × (hole.start + hole.new + hole.len + hole.tail ≤ length slots.old) × (length slots.old ≤ most_slots) }
    ensures { (result.head.0, result.moved, slots.new)
        ≡ closed_hole slots.old hole.head.0 hole.start hole.new hole.len hole.tail }
{
    if hole.len == 0 {
        return Settled {
            head: hole.head,
            moved: 0,
        };
    }
    // one call for either side, so that the copy stands in the closing itself when it is compiled
    let side = hole.shorter_side(slots.len());
    copies::wrap_copy(slots, side.src, side.dst, side.n);
    Settled {
        head: side.head,
        moved: side.n,
    }
}

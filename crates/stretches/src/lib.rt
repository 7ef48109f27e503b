// Copies of straight stretches of slots, and into them: with `copies`, which
// goes round the ring, the only functions that write more than one slot.
#![tactic(auto)]

mod leaves; // leaves.rt: into the first slots of a lent part
mod stretch; // stretch.rt: one straight stretch to another place

pub use leaves::{copy_in, copy_in_reversed, fill};
pub use stretch::copy;

// How many elements a local array takes: no less than the most slots a queue may have, so that it
// holds any stretch of them. A copy through the front of such an array is compiled to one memmove.
const HELD: usize = 16384;

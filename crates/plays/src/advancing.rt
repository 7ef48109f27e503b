// As many steps as the bytes and the buffer allow.
ghost use Rattle.std.specs.Prelude.{◌≡◌, ◌≤◌, drop, length, take};
ghost use Rattle.plays.specs.Pieces.{advanced};
ghost use Rattle.plays.specs.Playing.{part_of, play_of};

use crate::playing::{Advanced, Playing};
use crate::steps::step;

// Goes on with a replay over `bytes`, those that were read and not used yet; `last` says that no more
// come. The lines stand from the buffer's first byte on; one of fewer than 105 bytes gets none.
pub fn advance(
    slots: &mut [u32],
    playing: Playing,
    bytes: &[u8],
    last: bool,
    out: &mut [u8],
) -> Advanced
    ensures out_after { part_of slots.new result (take result.written out.new)
        ≡ advanced (length out.old) last bytes.now (play_of slots.old playing) }
    ensures out_unchanged { drop result.written out.new ≡ drop result.written out.old }
    ensures used_in_bounds { (result.used ≤ length bytes.now) × (result.written ≤ length out.old) }
{
    let mut done = Advanced {
        playing,
        used: 0,
        records: 0,
        broken: false,
        written: 0,
    };
    // A step writes at least one byte, so there are no more steps than bytes.
    for _ in 0..out.len() {
        let after = step(slots, done, bytes, last, out);
        if after.written == done.written {
            return after;
        }
        done = after;
    }
    done
}

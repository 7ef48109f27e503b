// Runs many journals: standard input is, again and again, a length of four bytes
// big-endian and that many bytes of a journal. Each journal is run as by `replay`,
// in the same slots, in which the values of the journals before it still stand.
#![tactic(auto)]

mod headers; // headers.rt: the length before a journal
mod journal; // journal.rt: one journal, and what is said of it

use headers::next_length;
use journal::run_one;
use replays::{BUFFER, Desk, SLOTS};
use streams::Failure;

// Runs one journal after the other; a broken one does not keep the others from being run. A proved loop has to end, and
// nothing says that the input does: the journals are counted.
fn run_all(rt: HostRuntime, desk: &mut Desk) -> Result<(), Failure> {
    let mut so_far = Ok(());
    for number in 1..u64::MAX {
        let Some(length) = next_length(rt, desk.program, number)? else {
            break;
        };
        match run_one(rt, desk, number, length) {
            Ok(()) => {}
            Err(Failure::Broken) => so_far = Err(Failure::Broken),
            failed => return failed,
        }
    }
    so_far
}

fn main(rt: HostRuntime) {
    let mut slots = [0u32; SLOTS];
    let mut input = [0u8; BUFFER];
    let mut out = [0u8; BUFFER];
    let mut desk = Desk {
        program: b"replay_many",
        slots: &mut slots,
        input: &mut input,
        out: &mut out,
    };
    let ended = run_all(rt, &mut desk);
    streams::leave(rt, ended);
}

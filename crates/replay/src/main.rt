// Runs a journal: reads its records from standard input, performs each on a queue
// of 16,000 slots, and writes what each gave; last, the elements that are left.
#![tactic(auto)]

use replays::{BUFFER, Desk, SLOTS};

fn main(rt: HostRuntime) {
    let mut slots = [0u32; SLOTS];
    let mut input = [0u8; BUFFER];
    let mut out = [0u8; BUFFER];
    let mut desk = Desk {
        program: b"replay",
        slots: &mut slots,
        input: &mut input,
        out: &mut out,
    };
    let replayed = desk.replay(rt, u64::MAX);
    if let Some(place) = replayed.broken {
        streams::tell(rt, format_args!("replay: {place}"));
    }
    streams::leave(rt, replayed.ended);
}

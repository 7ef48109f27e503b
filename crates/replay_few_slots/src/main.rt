// Runs a journal in three slots, through buffers that hold one record and one line.
#![tactic(auto)]

fn main(rt: HostRuntime) {
    let program = b"replay_few_slots";
    let mut slots = [0u32; 3];
    let mut input = [0u8; 12];
    let mut out = [0u8; 105];
    let replayed = replays::replay(rt, program, &mut slots, &mut input, &mut out, u64::MAX);
    if let Some(place) = replayed.broken {
        streams::tell(rt, format_args!("replay_few_slots: {place}"));
    }
    streams::leave(rt, replayed.ended);
}

// A script, line by line.
use streams::Failure;
use trial_calls::{BothLent, Lent, can_play, make_call};
use trial_text::{Input, Line, Output, Room, WORDS};

// Plays the next line, and answers whether there was one.
fn play_line(
    input: &mut Input,
    room: &mut Room,
    queues: &mut BothLent,
    out: &mut Output,
) -> Result<bool, Failure> {
    let mut words = [0usize; WORDS];
    let Some(numbers) = input.next_numbers(&mut words)? else {
        return Ok(false);
    };
    let kept = queues.kept();
    let Line { side, action } = Line::new(numbers, room)
        .filter(|line| can_play(line, kept))
        .ok_or(Failure::Broken)?;
    out.put(make_call(side, action, queues))?;
    out.put(format_args!(" | {} | {}\n", queues.a, queues.b))?;
    Ok(true)
}

// Plays a script, on slots of its capacities. A script without any line writes nothing.
pub fn play(
    input: &mut Input,
    a_slots: &mut [u32],
    b_slots: &mut [u32],
    out: &mut Output,
) -> Result<(), Failure> {
    let Some((a_cap, b_cap)) = input.capacities()? else {
        return Ok(());
    };
    let a_slots = a_slots.get_mut(..a_cap).ok_or(Failure::Broken)?;
    let b_slots = b_slots.get_mut(..b_cap).ok_or(Failure::Broken)?;
    out.put(format_args!("T {a_cap} {b_cap}\n"))?;
    let mut queues = BothLent {
        a: Lent::new(a_slots, 1000),
        b: Lent::new(b_slots, 2000),
    };
    let mut room = Room::new();
    // Nothing says that the input ends, but its lines can be counted.
    for _ in 0..u64::MAX {
        if !play_line(input, &mut room, &mut queues, out)? {
            break;
        }
    }
    Ok(())
}

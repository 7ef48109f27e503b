// A queue that outgrew its slots: it fills up, is moved into twice the slots in
// portions, with looks at both queues between them, and goes on there.
#![tactic(auto)]

use vec_deque::{Deque, Pair, Refusal};

// Prints a text and a number on a line.
fn print(rt: HostRuntime, text: &str, number: u64) {
    let _ = println!(rt; "{text}{number}");
}

// Says that a call was refused, after which there is nothing to go on with.
fn stop(rt: HostRuntime) {
    let _ = eprintln!(rt; "outgrown: a call was refused");
}

// Says why a number was not parked.
fn say_why(rt: HostRuntime, refusal: Refusal, number: u32) {
    match refusal {
        Refusal::Room => print(rt, "no room, refused with 4: ", u64::from(number)),
        Refusal::Open => print(rt, "move open, refused with 6: ", u64::from(number)),
        _ => stop(rt),
    }
}

// Parks a number behind the queue, and gives the record back that the call left: refused, the same.
fn park(rt: HostRuntime, slots: &mut [u32], queue: Deque, number: u32) -> Deque {
    match vec_deque::push_back(slots, queue, number) {
        Ok(change) => change.after,
        Err(refusal) => {
            say_why(rt, refusal, number);
            queue
        }
    }
}

// Looks at a queue: prints how many elements it has, and the first of them.
fn look(rt: HostRuntime, name: &str, slots: &[u32], queue: Deque) {
    print(rt, name, queue.len as u64);
    if let Ok(Some(number)) = vec_deque::front(slots, queue) {
        print(rt, "  first: ", u64::from(number));
    }
}

// Fills the three slots up. The fourth number finds no room.
fn fill(rt: HostRuntime, slots: &mut [u32], queue: Deque) -> Deque {
    let mut filled = queue;
    for number in [10, 20, 30, 40] {
        filled = park(rt, slots, filled, number);
    }
    filled
}

// Moves a portion: the first two elements, or all that are left, go behind the new queue's.
fn pass_on(rt: HostRuntime, slots: &[u32], more: &mut [u32], queues: Pair) -> Pair {
    match vec_deque::move_portion(slots, queues.queue, 2, more, queues.other) {
        Ok(change) => {
            print(rt, "moved: ", change.moved as u64);
            look(rt, "in the old queue: ", slots, change.after.queue);
            look(rt, "in the new queue: ", more, change.after.other);
            change.after
        }
        Err(_) => {
            stop(rt);
            queues
        }
    }
}

// Moves the whole queue, in two portions, and gives the new one.
fn move_over(rt: HostRuntime, slots: &[u32], more: &mut [u32], queues: Pair) -> Deque {
    // The old queue is left with one element, so the new one is marked.
    let queues = pass_on(rt, slots, more, queues);
    // While the mark stands, the new queue takes portions and nothing else: a push is refused.
    let other = park(rt, more, queues.other, 40);
    // The next portion leaves the old queue empty, and clears the mark.
    let queue = queues.queue;
    pass_on(rt, slots, more, Pair { queue, other }).other
}

fn run(rt: HostRuntime) -> Result<(), Refusal> {
    let mut slots = [0u32; 3];
    let fresh = vec_deque::fresh(&slots)?.after;
    let queue = fill(rt, &mut slots, fresh);
    // Twice the slots, and a fresh queue in them.
    let mut more = [0u32; 6];
    let other = vec_deque::fresh(&more)?.after;
    let moved = move_over(rt, &slots, &mut more, Pair { queue, other });
    // The queue goes on in its new slots.
    let queue = park(rt, &mut more, moved, 40);
    let queue = park(rt, &mut more, queue, 50);
    look(rt, "in the new queue: ", &more, queue);
    Ok(())
}

fn main(rt: HostRuntime) {
    if run(rt).is_err() {
        stop(rt);
    }
}

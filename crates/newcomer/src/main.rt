// A first program over the queue: parks instance numbers, takes a
// settled stretch out of the middle, and prints what is left.
#![tactic(auto)]

use vec_deque::{Deque, Drain, Refusal};

// Parks a number behind the queue, and gives the record back that the call left.
// A full queue refuses: the record stays the same, and nothing was written.
fn park(rt: HostRuntime, slots: &mut [u32], queue: Deque, number: u32) -> Deque {
    match vec_deque::push_back(slots, queue, number) {
        Ok(change) => change.after,
        Err(_) => {
            let _ = eprintln!(rt; "newcomer: no room for one more");
            queue
        }
    }
}

// Prints a name and a number on a line.
fn print(rt: HostRuntime, name: &str, number: u64) {
    let _ = println!(rt; "{name}{number}");
}

// Hands over and prints every element of an open drain, and gives the drain's record back.
fn settle(rt: HostRuntime, slots: &[u32], drain: Drain) -> Result<Drain, Refusal> {
    let mut open = drain;
    for _ in 0..drain.remaining {
        let handed = vec_deque::drain_next(slots, open)?;
        if let Some(number) = handed.number {
            print(rt, "settled: ", u64::from(number));
        }
        open = handed.after;
    }
    Ok(open)
}

fn run(rt: HostRuntime) -> Result<(), Refusal> {
    // The caller's slots: their number is the capacity.
    let mut slots = [0u32; 5];
    let mut queue = vec_deque::fresh(&slots)?.after;
    // Each call is given the record that the last one left. The sixth finds no room.
    for number in [10, 20, 30, 40, 50, 60] {
        queue = park(rt, &mut slots, queue, number);
    }
    // Takes positions 1 and 2 out: 20 and 30. The shorter side moves: 10, which stands before them.
    let drain = vec_deque::drain(&slots, queue, 1, 3)?.after;
    let drain = settle(rt, &slots, drain)?;
    let closed = vec_deque::drain_close(&mut slots, drain)?;
    let queue = closed.after;
    print(rt, "left: ", queue.len as u64);
    print(rt, "moved: ", closed.moved as u64);
    if let Some(number) = vec_deque::front(&slots, queue)? {
        print(rt, "first: ", u64::from(number));
    }
    if let Some(number) = vec_deque::back(&slots, queue)? {
        print(rt, "last: ", u64::from(number));
    }
    Ok(())
}

fn main(rt: HostRuntime) {
    // A refusal leaves nothing to go on with.
    if run(rt).is_err() {
        let _ = eprintln!(rt; "newcomer: a call was refused");
    }
}

// A little time between two tries.
use std::thread::sleep;
use std::time::Duration;

// Waits for the shortest time that the system knows, which is some 50 microseconds.
pub fn wait(rt: HostRuntime) {
    sleep(&rt, Duration::from_nanos(200));
}

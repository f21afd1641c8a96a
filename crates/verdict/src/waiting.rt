// A pause between two tries of what is not ready yet.
use std::thread;
use std::time::{Clock, Duration};

// In milliseconds.
const PAUSE: u64 = 10;

pub fn pause(clock: &impl Clock) {
    thread::sleep(clock, Duration::from_millis(PAUSE));
}

//! How long a writer rests that found nothing to do.

use std::thread::{sleep, yield_now};
use std::time::{Clock, Duration};

// So many times in a row only the processor is given up.
const YIELDS: u32 = 4;

// From then on a writer sleeps, first for so many microseconds, and twice as long each time, up to the most.
const FIRST_SLEEP: u64 = 100;

const MOST_DOUBLINGS: u32 = 3;

// How many tries in a row found nothing to do.
#[derive(Drop)]
pub(crate) struct Rest {
    idle: u32,
}

impl Rest {
    pub(crate) fn new() -> Rest {
        Rest { idle: 0 }
    }

    // Something was done.
    pub(crate) fn reset(&mut self) {
        self.idle = 0;
    }

    // Rests, longer than the last time.
    pub(crate) fn rest<R: Clock>(&mut self, rt: &R) {
        if self.idle < YIELDS {
            self.idle += 1;
            yield_now();
            return;
        }
        let doublings = (self.idle - YIELDS).min(MOST_DOUBLINGS);
        sleep(rt, Duration::from_micros(FIRST_SLEEP << doublings));
        self.idle = self.idle.saturating_add(1);
    }
}

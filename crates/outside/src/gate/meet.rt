// A gate at which two actors wait for each other.

use super::{Gate, Point};
use crate::memory::Memory;
use std::sync::atomic::{AtomicBool, Ordering};
use std::thread;

/// A gate for tests: it holds one actor at a point until another has passed a second point, and lets all others pass at
/// once.
///
/// The first pass of `held` waits until `until` has passed, and the first pass of `until` waits until `held` has come. A wait
/// ends after a number of turns all the same, and then the two have missed each other. A turn reads a flag and gives up the
/// processor.
#[derive(Debug, Drop)]
pub struct MeetGate {
    held: (u32, Point),
    until: (u32, Point),
    turns: u64,
    came: AtomicBool,
    reached: AtomicBool,
    passed: AtomicBool,
    missed: AtomicBool,
}

impl MeetGate {
    /// A gate at which no one has been: it holds `held`, an actor and a point, until `until` has passed, each for at most
    /// so many turns.
    ///
    /// # Errors
    ///
    /// `Memory` is left open, since no clause speaks of it; the call takes none.
    pub fn new(held: (u32, Point), until: (u32, Point), turns: u64) -> Result<MeetGate, Memory> {
        Ok(MeetGate {
            held,
            until,
            turns,
            came: AtomicBool::new(false),
            reached: AtomicBool::new(false),
            passed: AtomicBool::new(false),
            missed: AtomicBool::new(false),
        })
    }

    /// Whether `held` has come to its point.
    pub fn came(&self) -> bool {
        self.came.load(Ordering::SeqCst)
    }

    /// Whether one of the two ran out of turns.
    pub fn missed(&self) -> bool {
        self.missed.load(Ordering::SeqCst)
    }

    // Waits until the flag is set, or the turns are over.
    fn wait_for(&self, flag: &AtomicBool) {
        for _turn in 0..self.turns {
            if flag.load(Ordering::SeqCst) {
                return;
            }
            thread::yield_now();
        }
        self.missed.store(true, Ordering::SeqCst);
    }
}

impl Gate for MeetGate {
    fn pass(&self, who: u32, point: Point) {
        let at = (who, point);
        if at == self.held && !self.came.swap(true, Ordering::SeqCst) {
            self.wait_for(&self.passed);
        }
        if at == self.until && !self.reached.swap(true, Ordering::SeqCst) {
            self.wait_for(&self.came);
            self.passed.store(true, Ordering::SeqCst);
        }
    }
}

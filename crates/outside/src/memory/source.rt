// A source over bytes in memory.

ghost use Rattle.std.specs.Prelude.{◌≡◌, ◌≤◌, ◌<◌, ◌↔◌, ◌-◌, min, length, take, drop, Some, IsErr, IfOk, OnErr};
ghost use Rattle.std.specs.Io.KnownBytes.{ReadConsumes};
ghost use Rattle.outside.specs.Counts.{Rose};
ghost use Rattle.outside.specs.Schedule.{FailsNext, after_call, after_fault};
ghost use Rattle.outside.specs.InMemory.{fresh_source};

use crate::memory::Memory;
use crate::schedule::Schedule;
use crate::stream::{Failed, Source};
use std::alloc::Global;
use std::marker::Model;

/// A source of bytes in memory. It tells them, and fails exactly at the reads that are listed.
#[derive(Debug, Drop)]
pub struct MemSource {
    bytes: Vec<u8>,
    at: usize,
    chunk: usize,
    schedule: Schedule,
}

impl Model for MemSource {
    ghost use Rattle.std.specs.Prelude.{◌<◌, ◌≤◌, drop, length};
    ghost use Rattle.outside.specs.InMemory.{SourceState};

    ghost Value = { SourceState };

    ghost view = { λ s. record { left = drop s.at s.bytes.items; chunk = s.chunk; plan = s.schedule } };

    ghost invariant = { λ s. (s.at ≤ length s.bytes.items) × (0 < s.chunk) };
}

impl MemSource {
    /// A source of a copy of `bytes`, of which a read gives at most `chunk`. The reads whose
    /// numbers, counted from 0, stand in `fails` are faults.
    ///
    /// # Errors
    ///
    /// `Memory`: there was none for the copy or for the list of the reads that fail.
    pub fn over(
        alloc: Global,
        bytes: &[u8],
        chunk: usize,
        fails: &[u64],
    ) -> Result<MemSource, Memory>
        requires { 0 < chunk }
        ensures { IfOk result (λ s. s ≡ fresh_source bytes.now chunk fails.now) }
    {
        Ok(MemSource {
            bytes: Vec::from_slice(alloc, bytes)?,
            at: 0,
            chunk,
            schedule: Schedule::new(alloc, fails)?,
        })
    }

    /// The reads that failed so far.
    pub fn faults(&self) -> u64
        ensures { result ≡ self.now.plan.faults }
    {
        self.schedule.faults()
    }
}

impl Source for MemSource {
    ghost remaining = { λ s. Some s.left };

    ghost faults = { λ s. s.plan.faults };

    fn read(&mut self, buf: &mut [u8]) -> Result<usize, Failed>
        requires { 0 < length buf.old }
        ensures listed { IsErr result ↔ FailsNext self.old.plan }
        ensures size { IfOk result (λ n. n ≡ min self.old.chunk (min (length buf.old) (length self.old.left))) }
        ensures ok { IfOk result (λ n. self.new ≡ record self.old { left = drop n self.old.left; plan = after_call self.old.plan }) }
        ensures err { OnErr result (self.new ≡ record self.old { plan = after_fault self.old.plan }) }

        ensures count { IfOk result (λ n. n ≤ length buf.new) }
        ensures bytes { ReadConsumes (Some self.old.left) (Some self.new.left) result buf.new }
        ensures never_falls { self.old.plan.faults ≤ self.new.plan.faults }
        ensures failed { OnErr result (Rose self.old.plan.faults self.new.plan.faults) }
    {
        if self.schedule.fails_next() {
            self.schedule.fail();
            return Err(Failed);
        }
        let (_, left) = self.bytes.split_at(self.at);
        let size = self.chunk.min(buf.len().min(left.len()));
        let (piece, _) = left.split_at(size);
        buf[..size].copy_from_slice(piece);
        self.at += size;
        self.schedule.pass();
        Ok(size)
    }
}

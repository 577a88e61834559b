// A sink that keeps its bytes in memory.

ghost use Rattle.std.specs.Prelude.{◌≡◌, ◌≤◌, ◌<◌, ◌⊎◌, ◌++◌, min, length, take, Some, is_err, IsErr, IfOk, OnOk, OnErr};
ghost use Rattle.std.specs.Option.{option_map, ForSome};
ghost use Rattle.std.specs.Io.KnownBytes.{WriteAppends};
ghost use Rattle.outside.specs.Counts.{Rose};
ghost use Rattle.outside.specs.Schedule.{FailsNext, after_call};
ghost use Rattle.outside.specs.Sinks.{first_failure};
ghost use Rattle.outside.specs.InMemory.{after_failure, fresh_sink, WriteFailed, WriteStarved};

use crate::memory::Memory;
use crate::schedule::Schedule;
use crate::stream::{Failed, Sink};
use std::alloc::Global;
use std::marker::Model;

/// A sink in memory. It tells its bytes, and fails exactly at the writes that are listed and at
/// those that find no memory, which it counts.
#[derive(Debug, Drop)]
pub struct MemSink {
    bytes: Vec<u8>,
    chunk: usize,
    schedule: Schedule,
    starved: u64,
    // How many bytes there were at the first write that failed.
    at_failure: Option<usize>,
    ghost within: { ForSome at_failure (λ count. count ≤ length bytes.items) },
}

impl Model for MemSink {
    ghost use Rattle.std.specs.Prelude.{◌<◌, take};
    ghost use Rattle.std.specs.Option.{option_map};
    ghost use Rattle.outside.specs.InMemory.{SinkState};

    ghost Value = { SinkState };

    ghost view = { λ s. record { bytes = s.bytes.items; chunk = s.chunk; plan = s.schedule; starved = s.starved; at_failure = option_map (λ count. take count s.bytes.items) s.at_failure } };

    ghost invariant = { λ s. 0 < s.chunk };
}

impl MemSink {
    /// An empty sink, of which a write takes at most `chunk` bytes. The writes whose numbers,
    /// counted from 0, stand in `fails` are faults.
    ///
    /// # Errors
    ///
    /// `Memory`: there was none for the list of the writes that fail.
    pub fn new(alloc: Global, chunk: usize, fails: &[u64]) -> Result<MemSink, Memory>
        requires { 0 < chunk }
        ensures { IfOk result (λ s. s ≡ fresh_sink chunk fails.now) }
    {
        Ok(MemSink {
            bytes: Vec::new(alloc),
            chunk,
            schedule: Schedule::new(alloc, fails)?,
            starved: 0,
            at_failure: None,
        })
    }

    /// The bytes that were appended so far.
    pub fn bytes(&self) -> &[u8]
        ensures { result.now ≡ self.now.bytes }
    {
        self.bytes.as_slice()
    }

    /// The bytes at the first write that failed, `None` exactly where none did.
    pub fn at_failure(&self) -> Option<&[u8]>
        ensures { option_map (λ bytes. bytes.now) result ≡ self.now.at_failure }
    {
        match self.at_failure {
            Some(count) => Some(&self.bytes.as_slice()[..count]),
            None => None,
        }
    }

    /// The bytes that were appended, without a copy.
    pub(crate) fn into_bytes(self) -> Vec<u8>
        ensures { result.items ≡ self.bytes }
    {
        self.bytes
    }

    // Counts a write that failed.
    fn fail(&mut self)
        ensures state { self.new ≡ after_failure self.old }
        ensures never_falls { self.old.plan.faults ≤ self.new.plan.faults }
    {
        self.schedule.fail();
        if self.at_failure.is_none() {
            self.at_failure = Some(self.bytes.len());
        }
    }

    /// The writes that failed so far, those that found no memory included.
    pub fn faults(&self) -> u64
        ensures { result ≡ self.now.plan.faults }
    {
        self.schedule.faults()
    }

    /// The writes that found no memory so far.
    pub fn starved(&self) -> u64
        ensures { result ≡ self.now.starved }
    {
        self.starved
    }
}

impl Sink for MemSink {
    ghost contents = { λ s. Some s.bytes };

    ghost at_failure = { λ s. s.at_failure };

    ghost faults = { λ s. s.plan.faults };

    fn write(&mut self, piece: &[u8]) -> Result<usize, Failed>
        requires { 0 < length piece.now }
        ensures listed { FailsNext self.old.plan → IsErr result }
        ensures size { IfOk result (λ n. n ≡ min self.old.chunk (length piece.now)) }
        ensures ok { IfOk result (λ n. self.new ≡ record self.old { bytes = self.old.bytes ++ take n piece.now; plan = after_call self.old.plan }) }
        // A write that is not listed fails only for want of memory.
        ensures err { OnErr result (WriteFailed self.old self.new ⊎ WriteStarved self.old self.new) }

        ensures some { IfOk result (λ n. 0 < n) }
        ensures count { IfOk result (λ n. n ≤ length piece.now) }
        ensures bytes { WriteAppends (Some self.old.bytes) (Some self.new.bytes) result piece.now }
        ensures at_failure { self.new.at_failure ≡ first_failure (is_err result) (Some self.old.bytes) self.old.at_failure }
        ensures quiet { OnOk result (self.new.plan.faults ≡ self.old.plan.faults) }
        ensures never_falls { self.old.plan.faults ≤ self.new.plan.faults }
        ensures failed { OnErr result (Rose self.old.plan.faults self.new.plan.faults) }
    {
        if self.schedule.fails_next() {
            self.fail();
            return Err(Failed);
        }
        let size = self.chunk.min(piece.len());
        if self.bytes.extend_from_slice(&piece[..size]).is_err() {
            self.fail();
            self.starved = self.starved.saturating_add(1);
            return Err(Failed);
        }
        self.schedule.pass();
        Ok(size)
    }
}

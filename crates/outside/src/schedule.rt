// Which calls of an object in memory fail.

ghost use Rattle.std.specs.Prelude.{◌≡◌, ◌≤◌, ◌↔◌, IsTrue, IfOk};
ghost use Rattle.outside.specs.Schedule.{FailsNext, fresh_plan, after_call, after_fault};

use crate::memory::Memory;
use std::alloc::Global;
use std::marker::Model;

// The numbers of the calls that fail, counted from 0, the calls so far and the faults so far.
#[derive(Debug, Drop)]
pub(crate) struct Schedule {
    fails: Vec<u64>,
    calls: u64,
    faults: u64,
}

impl Model for Schedule {
    ghost use Rattle.outside.specs.Schedule.{Plan};

    ghost Value = { Plan };

    ghost view = { λ s. record { fails = s.fails.items; calls = s.calls; faults = s.faults } };
}

impl Schedule {
    pub(crate) fn new(alloc: Global, fails: &[u64]) -> Result<Schedule, Memory>
        ensures { IfOk result (λ s. s ≡ fresh_plan fails.now) }
    {
        Ok(Schedule {
            fails: Vec::from_slice(alloc, fails)?,
            calls: 0,
            faults: 0,
        })
    }

    pub(crate) fn faults(&self) -> u64
        ensures { result ≡ self.now.faults }
    {
        self.faults
    }

    // The calls so far.
    pub(crate) fn calls(&self) -> u64
        ensures { result ≡ self.now.calls }
    {
        self.calls
    }

    // Whether the next call fails.
    pub(crate) fn fails_next(&self) -> bool
        ensures { IsTrue result ↔ FailsNext self.now }
    {
        self.fails.contains(&self.calls)
    }

    // A call went well.
    pub(crate) fn pass(&mut self)
        ensures { self.new ≡ after_call self.old }
    {
        self.calls = self.calls.saturating_add(1);
    }

    // A call failed.
    pub(crate) fn fail(&mut self)
        ensures state { self.new ≡ after_fault self.old }
        ensures never_falls { self.old.faults ≤ self.new.faults }
    {
        self.calls = self.calls.saturating_add(1);
        self.faults = self.faults.saturating_add(1);
    }
}

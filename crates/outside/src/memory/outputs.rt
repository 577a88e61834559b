// Outputs in memory.

ghost use Rattle.std.specs.Prelude.{◌≡◌, ◌<◌, ◌≤◌, ◌↔◌, ◌&&◌, ℕ, true, is_err, List, [], Some, None, IfOk, IsErr, OnOk, OnErr, IsTrue, IfSome, option_map, if◌then◌else◌};
ghost use Rattle.outside.specs.Counts.{NoneFell, Rose, counted, last_count, more_counted};
ghost use Rattle.outside.specs.Names.{AllStay, Changes, CountsEnd, NowWritten, OtherCountsStay, OthersStay, StaysCreated, TakesBytes, fresh};
ghost use Rattle.outside.specs.InMemory.{fresh_sink};
ghost use Rattle.outside.specs.Entries.{ended, fails_nowhere};
ghost use Rattle.outside.specs.Outputs.{KeepsOutputs, failing_at, output_at, written_under, was_created, bytes_under, is_whole_under, faults_of_output, refused_ends_of, starved_outputs};

use crate::memory::by_name::{self, Faulty};
use crate::memory::{MemSink, Memory};
use crate::names::Outputs;
use crate::stream::Failed;
use std::alloc::Global;
use std::collections::BTreeMap;
use std::marker::Model;

// What stands under a name that was created.
#[derive(Debug, Drop)]
struct MemOutput {
    bytes: Vec<u8>,
    whole: bool,
    faults: u64,
    // The ends of whole answers that were refused.
    refused_ends: u64,
}

impl Model for MemOutput {
    ghost use Rattle.outside.specs.Entries.{OutputEntry};

    ghost Value = { OutputEntry };

    ghost view = { λ o. record { written = record { bytes = o.bytes.items; whole = o.whole }; faults = o.faults; refused_ends = o.refused_ends } };
}

impl MemOutput {
    // Takes the bytes of a sink. Where the end is refused, they do not count as a whole answer.
    fn end(&mut self, bytes: Vec<u8>, whole: bool, refused: bool)
        ensures state { self.new ≡ ended bytes.items whole refused self.old }
        ensures never_falls { self.old.refused_ends ≤ self.new.refused_ends }
    {
        self.bytes = bytes;
        self.whole = whole && !refused;
        if whole && refused {
            self.refused_ends = self.refused_ends.saturating_add(1);
        }
    }
}

impl Faulty for MemOutput {
    ghost use Rattle.outside.specs.Entries.{with_more_faults};

    ghost faults = { λ output. output.faults };

    ghost raised = { with_more_faults };

    fn raise(&mut self, more: u64) {
        self.faults = self.faults.saturating_add(more);
    }
}

// Which calls of an output fail.
#[derive(Debug, Drop)]
struct MemFailing {
    fails: Vec<u64>,
    create: bool,
    done: bool,
}

impl Model for MemFailing {
    ghost use Rattle.outside.specs.Entries.{Failing};

    ghost Value = { Failing };

    ghost view = { λ f. record { fails = f.fails.items; create = f.create; done = f.done } };
}

/// Outputs in memory. They tell their bytes. A `create` fails exactly where it is refused, or where
/// it finds no memory, which is counted; a `done` fails exactly where it is refused.
///
/// The names that were never created have one count of faults together.
#[derive(Debug, Drop)]
pub struct MemOutputs {
    alloc: Global,
    entries: BTreeMap<String, MemOutput>,
    failing: BTreeMap<String, MemFailing>,
    missing: u64,
    starved: u64,
}

impl MemOutputs {
    /// Outputs of which none was created.
    ///
    /// # Errors
    ///
    /// `Memory` is left open by the contract; the call takes none.
    pub fn new(alloc: Global) -> Result<MemOutputs, Memory>
        ensures empty { IfOk result (λ outputs. (name : List ℕ) → output_at outputs name ≡ None) }
        ensures faults { IfOk result (λ outputs. (name : List ℕ) → faults_of_output outputs name ≡ 0) }
        ensures starved { IfOk result (λ outputs. starved_outputs outputs ≡ 0) }
        ensures failing { IfOk result (λ outputs. (name : List ℕ) → failing_at outputs name ≡ fails_nowhere) }
    {
        Ok(MemOutputs {
            alloc,
            entries: BTreeMap::new(alloc),
            failing: BTreeMap::new(alloc),
            missing: 0,
            starved: 0,
        })
    }

    /// Sets the writes that fail of each sink that is created under `name` from now on, by their
    /// numbers, counted from 0 for each sink.
    ///
    /// # Errors
    ///
    /// `Memory`: there was none for the list or the name. Which calls fail stays as it was, for each name.
    pub fn fail(&mut self, name: &str, fails: &[u64]) -> Result<(), Memory>
        ensures ok { OnOk result (Changes name.now (record (failing_at self.old name.now) { fails = fails.now }) (failing_at self.old) (failing_at self.new)) }
        ensures err { OnErr result (AllStay (failing_at self.old) (failing_at self.new)) }
        ensures kept { KeepsOutputs self.old self.new }
    {
        let failing = MemFailing {
            fails: Vec::from_slice(self.alloc, fails)?,
            create: self.refuses_create(name),
            done: self.refuses_done(name),
        };
        self.put_failing(name, failing)
    }

    /// Sets whether every `create`, and whether every `done`, of `name` fails from now on.
    ///
    /// # Errors
    ///
    /// `Memory`: there was none for a list or the name. Which calls fail stays as it was, for each name.
    pub fn refuse(&mut self, name: &str, create: bool, done: bool) -> Result<(), Memory>
        ensures ok { OnOk result (Changes name.now (record (failing_at self.old name.now) { create = create; done = done }) (failing_at self.old) (failing_at self.new)) }
        ensures err { OnErr result (AllStay (failing_at self.old) (failing_at self.new)) }
        ensures kept { KeepsOutputs self.old self.new }
    {
        let failing = MemFailing {
            fails: Vec::from_slice(self.alloc, self.fails(name))?,
            create,
            done,
        };
        self.put_failing(name, failing)
    }

    /// The bytes under a name, `None` exactly where it was never created.
    pub fn bytes(&self, name: &str) -> Option<&[u8]>
        ensures { option_map (λ bytes. bytes.now) result ≡ bytes_under self.now name.now }
    {
        match self.entries.get(name) {
            Some(output) => Some(output.bytes.as_slice()),
            None => None,
        }
    }

    /// Whether the bytes under a name are a whole answer. A name that was never created has none.
    pub fn is_whole(&self, name: &str) -> bool
        ensures { result ≡ is_whole_under self.now name.now }
    {
        match self.entries.get(name) {
            Some(output) => output.whole,
            None => false,
        }
    }

    /// The faults of a name so far.
    pub fn faults(&self, name: &str) -> u64
        ensures { result ≡ faults_of_output self.now name.now }
    {
        match self.entries.get(name) {
            Some(output) => output.faults,
            None => self.missing,
        }
    }

    /// The calls of `done` for a name so far that were refused though a whole answer was given back.
    pub fn refused_ends(&self, name: &str) -> u64
        ensures { result ≡ refused_ends_of self.now name.now }
    {
        match self.entries.get(name) {
            Some(output) => output.refused_ends,
            None => 0,
        }
    }

    /// The calls that found no memory so far, those of the sinks that came back included.
    pub fn starved(&self) -> u64
        ensures { result ≡ starved_outputs self.now }
    {
        self.starved
    }

    // The writes that fail of each sink that is created under a name.
    fn fails(&self, name: &str) -> &[u64]
        ensures { result.now ≡ (failing_at self.now name.now).fails }
    {
        match self.failing.get(name) {
            Some(failing) => failing.fails.as_slice(),
            None => &[],
        }
    }

    // Whether every `create` of a name fails.
    fn refuses_create(&self, name: &str) -> bool
        ensures { result ≡ (failing_at self.now name.now).create }
    {
        match self.failing.get(name) {
            Some(failing) => failing.create,
            None => false,
        }
    }

    // Whether every `done` of a name fails.
    fn refuses_done(&self, name: &str) -> bool
        ensures { result ≡ (failing_at self.now name.now).done }
    {
        match self.failing.get(name) {
            Some(failing) => failing.done,
            None => false,
        }
    }

    // Sets which calls of a name fail.
    fn put_failing(&mut self, name: &str, failing: MemFailing) -> Result<(), Memory>
        ensures ok { OnOk result (Changes name.now failing (failing_at self.old) (failing_at self.new)) }
        ensures err { OnErr result (AllStay (failing_at self.old) (failing_at self.new)) }
        ensures kept { KeepsOutputs self.old self.new }
    {
        by_name::put(&mut self.failing, self.alloc, name, failing)
    }

    // Adds to the faults of a name.
    fn add_faults(&mut self, name: &str, more: u64)
        ensures here { faults_of_output self.new name.now ≡ more_counted more (faults_of_output self.old name.now) }
        ensures never_falls { NoneFell (faults_of_output self.old) (faults_of_output self.new) }
        ensures written { AllStay (written_under self.old) (written_under self.new) }
        ensures ends { AllStay (refused_ends_of self.old) (refused_ends_of self.new) }
        ensures created { AllStay (was_created self.old) (was_created self.new) }
        ensures others { OtherCountsStay name.now (output_at self.old) (faults_of_output self.old) (faults_of_output self.new) }
        ensures starved { starved_outputs self.new ≡ starved_outputs self.old }
        ensures failing { self.new.failing ≡ self.old.failing }
    {
        if !by_name::add_faults(&mut self.entries, name, more) {
            self.missing = self.missing.saturating_add(more);
        }
    }

    // Makes a name one that was created, with no bytes and the faults that it had.
    fn begin(&mut self, name: &str) -> Result<MemSink, Memory>
        ensures ok { OnOk result (Changes name.now (Some (record { written = fresh; faults = faults_of_output self.old name.now; refused_ends = refused_ends_of self.old name.now })) (output_at self.old) (output_at self.new)) }
        ensures sink { IfOk result (λ sink. sink ≡ fresh_sink last_count (failing_at self.old name.now).fails) }
        ensures err { OnErr result (AllStay (output_at self.old) (output_at self.new)) }
        ensures missing { self.new.missing ≡ self.old.missing }
        ensures starved { starved_outputs self.new ≡ starved_outputs self.old }
        ensures failing { self.new.failing ≡ self.old.failing }
    {
        let sink = MemSink::new(self.alloc, usize::MAX, self.fails(name))?;
        let output = MemOutput {
            bytes: Vec::new(self.alloc),
            whole: false,
            faults: self.faults(name),
            refused_ends: self.refused_ends(name),
        };
        by_name::put(&mut self.entries, self.alloc, name, output)?;
        Ok(sink)
    }

    // Gives a name that was created its bytes, and counts a refused end.
    fn end(&mut self, name: &str, bytes: Vec<u8>, whole: bool, refused: bool)
        requires { was_created self.old name.now ≡ true }
        ensures ends { CountsEnd name.now (whole && refused) (refused_ends_of self.old) (refused_ends_of self.new) }
        ensures entry { IfSome (output_at self.old name.now) (λ entry. Changes name.now (Some (ended bytes.items whole refused entry)) (output_at self.old) (output_at self.new)) }
        ensures faults { AllStay (faults_of_output self.old) (faults_of_output self.new) }
        ensures starved { starved_outputs self.new ≡ starved_outputs self.old }
        ensures failing { self.new.failing ≡ self.old.failing }
    {
        let Some(output) = self.entries.get_mut(name) else {
            unreachable!();
        };
        output.end(bytes, whole, refused);
    }
}

impl Outputs for MemOutputs {
    type Snk = MemSink;

    ghost written = { written_under };

    ghost is_created = { was_created };

    ghost faults_at = { faults_of_output };

    ghost refused_ends = { refused_ends_of };

    fn create(&mut self, name: &str) -> Result<MemSink, Failed>
        // It fails exactly where it is refused, or memory was wanted, which is counted.
        ensures refused { IsTrue (failing_at self.old name.now).create → IsErr result }
        ensures starved { OnErr result (starved_outputs self.new ≡ (if (failing_at self.old name.now).create then starved_outputs self.old else counted (starved_outputs self.old))) }
        ensures fed { OnOk result (starved_outputs self.new ≡ starved_outputs self.old) }
        ensures sink { IfOk result (λ snk. snk ≡ fresh_sink last_count (failing_at self.old name.now).fails) }
        ensures failing { AllStay (failing_at self.old) (failing_at self.new) }
        ensures none { OnErr result (AllStay (was_created self.old) (was_created self.new)) }
        ensures counts { OtherCountsStay name.now (output_at self.old) (faults_of_output self.old) (faults_of_output self.new) }

        ensures ok { OnOk result (NowWritten (written_under self.old name.now) (written_under self.new name.now) fresh) }
        ensures created { OnOk result (was_created self.new name.now ≡ true) }
        ensures quiet { OnOk result (AllStay (faults_of_output self.old) (faults_of_output self.new)) }
        ensures others { OthersStay name.now (written_under self.old) (written_under self.new) }
        ensures stays { StaysCreated (was_created self.old) (was_created self.new) }
        ensures err { OnErr result (written_under self.new name.now ≡ written_under self.old name.now) }
        ensures ends { AllStay (refused_ends_of self.old) (refused_ends_of self.new) }
        ensures never_falls { NoneFell (faults_of_output self.old) (faults_of_output self.new) }
        ensures failed { OnErr result (Rose (faults_of_output self.old name.now) (faults_of_output self.new name.now)) }
    {
        if self.refuses_create(name) {
            self.add_faults(name, 1);
            return Err(Failed);
        }
        match self.begin(name) {
            Ok(sink) => Ok(sink),
            Err(Memory) => {
                self.starved = self.starved.saturating_add(1);
                self.add_faults(name, 1);
                Err(Failed)
            }
        }
    }

    fn done(&mut self, name: &str, snk: MemSink, whole: bool) -> Result<(), Failed>
        requires { was_created self.old name.now ≡ true }
        ensures refused { IsErr result ↔ IsTrue (failing_at self.old name.now).done }
        ensures starved { starved_outputs self.new ≡ more_counted snk.starved (starved_outputs self.old) }
        ensures adds { OnOk result (0 < snk.plan.faults → faults_of_output self.new name.now ≡ more_counted snk.plan.faults (faults_of_output self.old name.now)) }
        ensures err { OnErr result (faults_of_output self.new name.now ≡ more_counted (counted snk.plan.faults) (faults_of_output self.old name.now)) }
        ensures failing { AllStay (failing_at self.old) (failing_at self.new) }
        ensures counts { OtherCountsStay name.now (output_at self.old) (faults_of_output self.old) (faults_of_output self.new) }

        ensures bytes { TakesBytes (written_under self.old name.now) (written_under self.new name.now) (Some snk.bytes) whole result }
        ensures ends { CountsEnd name.now (whole && is_err result) (refused_ends_of self.old) (refused_ends_of self.new) }
        ensures quiet { OnOk result (snk.plan.faults ≡ 0 → AllStay (faults_of_output self.old) (faults_of_output self.new)) }
        ensures others { OthersStay name.now (written_under self.old) (written_under self.new) }
        ensures stays { StaysCreated (was_created self.old) (was_created self.new) }
        ensures never_falls { NoneFell (faults_of_output self.old) (faults_of_output self.new) }
    {
        self.starved = self.starved.saturating_add(snk.starved());
        let refused = self.refuses_done(name);
        let more = if refused {
            snk.faults().saturating_add(1)
        } else {
            snk.faults()
        };
        if more > 0 {
            self.add_faults(name, more);
        }
        self.end(name, snk.into_bytes(), whole, refused);
        if refused { Err(Failed) } else { Ok(()) }
    }
}

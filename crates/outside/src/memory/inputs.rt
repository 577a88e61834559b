// Inputs in memory.

ghost use Rattle.std.specs.Prelude.{◌≡◌, ◌<◌, ◌≤◌, ◌+◌, ◌≢◌, ℕ, List, Some, None, IfOk, IfSome, IsErr, IsNone, OnOk, OnErr, OnSome, IfNone, IsSome, IsTrue, ◌↔◌, ◌⊎◌};
ghost use Rattle.std.specs.BTreeMap.{get_by_text};
ghost use Rattle.outside.specs.Counts.{NoneFell, Rose, counted, more_counted};
ghost use Rattle.outside.specs.Told.{GivesBytes};
ghost use Rattle.outside.specs.Names.{AllStay, Changes, OtherCountsStay, TakesFaults};
ghost use Rattle.outside.specs.InMemory.{fresh_source};
ghost use Rattle.outside.specs.Files.{file_at, bytes_of_input, faults_of_input, KeepsInputs, starved_inputs};

use crate::memory::by_name::{self, Faulty};
use crate::memory::{MemSource, Memory};
use crate::names::Inputs;
use crate::stream::Failed;
use std::alloc::Global;
use std::collections::BTreeMap;
use std::marker::Model;

// What was put under a name.
#[derive(Debug, Drop)]
struct MemFile {
    bytes: Vec<u8>,
    chunk: usize,
    fails: Vec<u64>,
    faults: u64,
}

impl Model for MemFile {
    ghost use Rattle.std.specs.Prelude.{◌<◌};
    ghost use Rattle.outside.specs.Entries.{InputFile};

    ghost Value = { InputFile };

    ghost view = { λ f. record { bytes = f.bytes.items; chunk = f.chunk; fails = f.fails.items; faults = f.faults } };

    ghost invariant = { λ f. 0 < f.chunk };
}

impl MemFile {
    fn source(&self, alloc: Global) -> Result<MemSource, Memory>
        ensures { IfOk result (λ src. src ≡ fresh_source self.now.bytes self.now.chunk self.now.fails) }
    {
        MemSource::over(
            alloc,
            self.bytes.as_slice(),
            self.chunk,
            self.fails.as_slice(),
        )
    }
}

impl Faulty for MemFile {
    ghost use Rattle.outside.specs.Entries.{with_faults};

    ghost faults = { λ file. file.faults };

    ghost raised = { with_faults };

    fn raise(&mut self, more: u64) {
        self.faults = self.faults.saturating_add(more);
    }
}

/// Inputs in memory. They tell their bytes, and an `open` fails exactly where nothing was put under
/// the name, or where it finds no memory, which is counted.
///
/// The names under which nothing was put have one count of faults together.
#[derive(Debug, Drop)]
pub struct MemInputs {
    alloc: Global,
    files: BTreeMap<String, MemFile>,
    missing: u64,
    starved: u64,
}

impl MemInputs {
    /// Inputs with no name.
    ///
    /// # Errors
    ///
    /// `Memory` is left open by the contract; the call takes none.
    pub fn new(alloc: Global) -> Result<MemInputs, Memory>
        ensures empty { IfOk result (λ inputs. (name : List ℕ) → file_at inputs name ≡ None) }
        ensures faults { IfOk result (λ inputs. (name : List ℕ) → faults_of_input inputs name ≡ 0) }
        ensures starved { IfOk result (λ inputs. starved_inputs inputs ≡ 0) }
    {
        Ok(MemInputs {
            alloc,
            files: BTreeMap::new(alloc),
            missing: 0,
            starved: 0,
        })
    }

    /// Puts a copy of `bytes` under `name`, in the place of what stood there. A source of them gives
    /// at most `chunk` bytes a read, and its reads that stand in `fails` are faults. The faults of
    /// the name stay.
    ///
    /// # Errors
    ///
    /// `Memory`: there was none for the copy, the list of the reads that fail, or the name. What stood under each name
    /// stays.
    pub fn put(
        &mut self,
        name: &str,
        bytes: &[u8],
        chunk: usize,
        fails: &[u64],
    ) -> Result<(), Memory>
        requires { 0 < chunk }
        ensures ok { OnOk result (Changes name.now (Some (record { bytes = bytes.now; chunk = chunk; fails = fails.now; faults = faults_of_input self.old name.now })) (file_at self.old) (file_at self.new)) }
        ensures err { OnErr result (AllStay (file_at self.old) (file_at self.new)) }
        ensures faults { AllStay (faults_of_input self.old) (faults_of_input self.new) }
        ensures starved { starved_inputs self.new ≡ starved_inputs self.old }
    {
        let faults = self.faults(name);
        let file = MemFile {
            bytes: Vec::from_slice(self.alloc, bytes)?,
            chunk,
            fails: Vec::from_slice(self.alloc, fails)?,
            faults,
        };
        by_name::put(&mut self.files, self.alloc, name, file)
    }

    /// The faults of a name so far.
    pub fn faults(&self, name: &str) -> u64
        ensures { result ≡ faults_of_input self.now name.now }
    {
        match self.files.get(name) {
            Some(file) => file.faults,
            None => self.missing,
        }
    }

    /// The calls that found no memory so far.
    pub fn starved(&self) -> u64
        ensures { result ≡ starved_inputs self.now }
    {
        self.starved
    }

    // Adds to the faults of a name.
    fn add_faults(&mut self, name: &str, more: u64)
        ensures here { faults_of_input self.new name.now ≡ more_counted more (faults_of_input self.old name.now) }
        ensures never_falls { NoneFell (faults_of_input self.old) (faults_of_input self.new) }
        ensures kept { KeepsInputs self.old self.new }
        ensures others { OtherCountsStay name.now (file_at self.old) (faults_of_input self.old) (faults_of_input self.new) }
        ensures starved { starved_inputs self.new ≡ starved_inputs self.old }
    {
        if !by_name::add_faults(&mut self.files, name, more) {
            self.missing = self.missing.saturating_add(more);
        }
    }
}

impl Inputs for MemInputs {
    type Src = MemSource;

    ghost bytes_at = { bytes_of_input };

    ghost faults_at = { faults_of_input };

    fn open(&mut self, name: &str) -> Result<MemSource, Failed>
        // It fails exactly where nothing was put under the name, or memory was wanted.
        ensures absent { IsNone (file_at self.old name.now) → IsErr result }
        ensures starved { OnErr result (IsNone (file_at self.old name.now) ⊎ (starved_inputs self.new ≡ counted (starved_inputs self.old))) }
        ensures fed { OnOk result (starved_inputs self.new ≡ starved_inputs self.old) }
        ensures source { IfOk result (λ src. IfSome (file_at self.old name.now) (λ file. src ≡ fresh_source file.bytes file.chunk file.fails)) }
        ensures inputs { KeepsInputs self.old self.new }

        ensures gives { IfOk result (λ src. GivesBytes (bytes_of_input self.old name.now) (Some src.left)) }
        ensures fresh { IfOk result (λ src. src.plan.faults ≡ 0) }
        ensures ok { OnOk result (AllStay (faults_of_input self.old) (faults_of_input self.new)) }
        ensures kept { AllStay (bytes_of_input self.old) (bytes_of_input self.new) }
        ensures others { OtherCountsStay name.now (file_at self.old) (faults_of_input self.old) (faults_of_input self.new) }
        ensures never_falls { NoneFell (faults_of_input self.old) (faults_of_input self.new) }
        ensures failed { OnErr result (Rose (faults_of_input self.old name.now) (faults_of_input self.new name.now)) }
    {
        let Some(file) = self.files.get(name) else {
            self.add_faults(name, 1);
            return Err(Failed);
        };
        match file.source(self.alloc) {
            Ok(src) => Ok(src),
            Err(Memory) => {
                self.starved = self.starved.saturating_add(1);
                self.add_faults(name, 1);
                Err(Failed)
            }
        }
    }

    fn close(&mut self, name: &str, src: MemSource)
        ensures adds { 0 < src.plan.faults → faults_of_input self.new name.now ≡ more_counted src.plan.faults (faults_of_input self.old name.now) }
        ensures inputs { KeepsInputs self.old self.new }
        ensures starved { starved_inputs self.new ≡ starved_inputs self.old }

        ensures takes { TakesFaults src.plan.faults (faults_of_input self.old name.now) (faults_of_input self.new name.now) }
        ensures quiet { src.plan.faults ≡ 0 → AllStay (faults_of_input self.old) (faults_of_input self.new) }
        ensures kept { AllStay (bytes_of_input self.old) (bytes_of_input self.new) }
        ensures others { OtherCountsStay name.now (file_at self.old) (faults_of_input self.old) (faults_of_input self.new) }
        ensures never_falls { NoneFell (faults_of_input self.old) (faults_of_input self.new) }
    {
        if src.faults() > 0 {
            self.add_faults(name, src.faults());
        }
    }
}

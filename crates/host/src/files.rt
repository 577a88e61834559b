// Files as inputs and outputs. Each says on standard error which file was at fault, and why.

ghost use Rattle.std.specs.Prelude.{◌≡◌, IfOk, None, true};

use crate::in_use::InUse;
use crate::output::Output;
use crate::progress::Progress;
use crate::quotes::Quotes;
use crate::shown::Shown;
use crate::watched::Watched;
use outside::{Failed, Inputs, Outputs, Sink, Source};
use std::fs::{File, Metadata};
use std::io::Read;
use std::rt::{Clock, Files};
use std::{fs, io};

// So many places beside an output are tried: a run that was killed may have left a file there.
const PLACES_BESIDE: u32 = 16;

/// A reader as a source. It tells what its reader tells.
#[derive(Drop)]
pub struct Input<R> {
    reader: R,
    faults: u64,
    // Why it failed, where the last read did.
    failed: Option<io::Error>,
    quotes: Quotes,
}

impl<R: Read> Source for Input<R> {
    ghost remaining = { λ s. R.remaining s.reader };

    ghost faults = { λ s. s.faults };

    fn read(&mut self, buf: &mut [u8]) -> Result<usize, Failed> {
        match self.reader.read(buf) {
            Ok(count) => {
                self.quotes.pass(buf.get(..count).unwrap_or(&[]));
                Ok(count)
            }
            Err(e) => {
                self.faults = self.faults.saturating_add(1);
                self.failed = Some(e);
                Err(Failed)
            }
        }
    }
}

/// The files of the system as inputs, with one count of faults for all names.
///
/// Standard error says which file could not be read, and why.
#[derive(Drop)]
pub struct FileInputs<'a, F> {
    files: &'a F,
    in_use: &'a InUse,
    shows_progress: bool,
    // The file of a plan, which is no table.
    plan: Option<&'a str>,
    faults: u64,
}

impl<'a, F: Files<File = File> + Clock + Eprint + AllocGlobal> FileInputs<'a, F> {
    /// Inputs that no output in `in_use` replaces. `plan` is the name of the plan's own file, if there is one: it is no table,
    /// so nobody is warned of its quotes. With `shows_progress` standard error shows how far a file is read.
    pub fn new(
        files: &'a F,
        in_use: &'a InUse,
        shows_progress: bool,
        plan: Option<&'a str>,
    ) -> FileInputs<'a, F> {
        FileInputs {
            files,
            in_use,
            shows_progress,
            plan,
            faults: 0,
        }
    }

    // A file, unless it would be replaced.
    fn file(&self, name: &str) -> io::Result<File> {
        let file = fs::open(self.files, name)?;
        if !self.in_use.reads(&file.metadata()?)? {
            return Err(io::Error::other(
                "an output of the same plan would replace it: choose another output",
            ));
        }
        Ok(file)
    }

    // Without a clock nothing is shown, and the file is read all the same.
    fn watched(&self, name: &str, file: File) -> Watched<'a, File, F> {
        if !self.shows_progress {
            return Watched::new(file, None);
        }
        let progress = Progress::start(self.files, "reading", name, size_of(&file));
        Watched::new(file, progress.ok())
    }

    fn tell(&self, name: &str, why: &io::Error) {
        let _ = eprintln!(self.files; "spill: {} could not be read: {why}", Shown(name));
    }

    // Quotes pair up in a table, so one that has no other may have hidden the ends of records.
    fn warn(&self, name: &str) {
        if self.plan != Some(name) {
            let _ = eprintln!(self.files;
                "spill: {} has an odd number of quotes: one may not be closed, so several records may have been read as one",
                Shown(name)
            );
        }
    }
}

// The bytes of a file, if it is one that tells: a pipe has no size, and a file of the system's own has 0.
fn size_of(file: &File) -> Option<u64> {
    match file.metadata() {
        Ok(data) if data.is_file() && data.len() > 0 => Some(data.len()),
        _ => None,
    }
}

impl<'a, F: Files<File = File> + Clock + Eprint + AllocGlobal + Sync> Inputs for FileInputs<'a, F> {
    type Src = Input<Watched<'a, File, F>>;

    ghost bytes_at = { λ _ _. None };

    ghost faults_at = { λ s _. s.faults };

    fn open(&mut self, name: &str) -> Result<Input<Watched<'a, File, F>>, Failed> {
        match self.file(name) {
            Ok(file) => Ok(Input {
                reader: self.watched(name, file),
                faults: 0,
                failed: None,
                quotes: Quotes::new(),
            }),
            Err(e) => {
                self.tell(name, &e);
                self.faults = self.faults.saturating_add(1);
                Err(Failed)
            }
        }
    }

    fn close(&mut self, name: &str, mut src: Input<Watched<'a, File, F>>) {
        self.faults = self.faults.saturating_add(src.faults);
        src.reader.finish();
        if let Some(e) = &src.failed {
            self.tell(name, e);
        }
        if src.quotes.has_single() {
            self.warn(name);
        }
    }
}

/// A file that is written beside its place.
#[derive(Drop)]
pub struct PartFile<'a, F> {
    output: Output<Watched<'a, File, F>>,
    place: String,
}

impl<F: Clock + Eprint + AllocGlobal + Sync> Sink for PartFile<'_, F> {
    ghost contents = { λ s. None };

    ghost at_failure = { λ s. None };

    ghost faults = { λ s. s.output.faults };

    fn write(&mut self, piece: &[u8]) -> Result<usize, Failed> {
        self.output.write(piece)
    }
}

/// Files that are written beside their place, with one count of faults for all names. Each is moved there when it is done, if
/// it is whole, and else removed; so what stood there stands until an answer replaces it.
///
/// Standard error says which file could not be written, and why.
#[derive(Drop)]
pub struct FileOutputs<'a, F> {
    files: &'a F,
    in_use: &'a InUse,
    shows_progress: bool,
    faults: u64,
    // The ends of whole answers, of any name, that were refused.
    refused_ends: u64,
}

impl<'a, F: Files<File = File> + Clock + Eprint + AllocGlobal> FileOutputs<'a, F> {
    /// Outputs that replace no input in `in_use`. With `shows_progress` standard error shows how much of a file is written.
    pub fn new(files: &'a F, in_use: &'a InUse, shows_progress: bool) -> FileOutputs<'a, F> {
        FileOutputs {
            files,
            in_use,
            shows_progress,
            faults: 0,
            refused_ends: 0,
        }
    }

    fn watched(&self, name: &str, file: File) -> Watched<'a, File, F> {
        if !self.shows_progress {
            return Watched::new(file, None);
        }
        let progress = Progress::start(self.files, "writing", name, None);
        Watched::new(file, progress.ok())
    }

    // A new file beside this place, in which a file may stand that no input is.
    fn part_of(&self, name: &str) -> io::Result<PartFile<'a, F>>
        ensures { IfOk result (λ part. part.output.faults ≡ 0) }
    {
        if let Ok(data) = fs::metadata(self.files, name) {
            self.may_replace(&data)?;
        }
        for number in 0..PLACES_BESIDE {
            let place = format!(in self.files.alloc(); "{name}.spill-part-{number}")?;
            match File::create_new(self.files, place.as_str()) {
                Ok(file) => {
                    return Ok(PartFile {
                        output: Output::new(self.watched(name, file)),
                        place,
                    });
                }
                Err(e) if e.kind() == io::ErrorKind::AlreadyExists => {}
                Err(e) => return Err(e),
            }
        }
        Err(io::Error::other(
            "files of earlier runs are beside it: remove those whose names have .spill-part- at the end",
        ))
    }

    fn may_replace(&self, data: &Metadata) -> io::Result<()> {
        if !data.is_file() {
            return Err(io::Error::other("it is not a regular file: choose another output"));
        }
        if !self.in_use.replaces(data)? {
            return Err(io::Error::other(
                "it would replace an input of the same run: choose another output",
            ));
        }
        Ok(())
    }

    // Moves a whole file to its place, or removes it.
    fn settle(&self, name: &str, place: &str, whole: bool) -> io::Result<()> {
        if !whole {
            return fs::remove_file(self.files, place);
        }
        let moved = fs::rename(self.files, place, name);
        if moved.is_err() {
            let _ = fs::remove_file(self.files, place);
        }
        moved
    }

    fn tell(&self, name: &str, why: &io::Error) {
        let _ = eprintln!(self.files; "spill: {} could not be written: {why}", Shown(name));
    }
}

impl<'a, F: Files<File = File> + Clock + Eprint + AllocGlobal + Sync> Outputs
    for FileOutputs<'a, F> {
    type Snk = PartFile<'a, F>;

    ghost written = { λ _ _. None };

    ghost is_created = { λ _ _. true };

    ghost faults_at = { λ s _. s.faults };

    ghost refused_ends = { λ s _. s.refused_ends };

    fn create(&mut self, name: &str) -> Result<PartFile<'a, F>, Failed> {
        match self.part_of(name) {
            Ok(part) => Ok(part),
            Err(e) => {
                self.tell(name, &e);
                self.faults = self.faults.saturating_add(1);
                Err(Failed)
            }
        }
    }

    fn done(&mut self, name: &str, snk: PartFile<'a, F>, whole: bool) -> Result<(), Failed> {
        self.faults = self.faults.saturating_add(snk.output.faults());
        let PartFile { mut output, place } = snk;
        output.writer().finish();
        if let Some(e) = output.failed() {
            self.tell(name, e);
        }
        drop(output);
        match self.settle(name, place.as_str(), whole) {
            Ok(()) => Ok(()),
            Err(e) => {
                self.tell(name, &e);
                self.faults = self.faults.saturating_add(1);
                if whole {
                    self.refused_ends = self.refused_ends.saturating_add(1);
                }
                Err(Failed)
            }
        }
    }
}

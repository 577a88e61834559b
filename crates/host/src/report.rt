// The report, of which so much is kept as a person is told about.

ghost use Rattle.std.specs.Prelude.{◌≡◌, ◌≤◌, ◌<◌, length, None, is_err, IfOk, OnOk, OnErr};
ghost use Rattle.std.specs.Io.KnownBytes.{WriteAppends};
ghost use Rattle.outside.specs.Counts.{Rose};
ghost use Rattle.outside.specs.Sinks.{first_failure};

use crate::output::Output;
use outside::{Failed, Sink};
use std::alloc::Global;
use std::io;
use std::io::Write;

// Lines of a run, and a refusal of a count, are shorter together, but for names of columns that are very long.
const KEPT: usize = 4096;

/// The report as a sink, which keeps its first bytes.
#[derive(Drop)]
pub struct Report<W> {
    output: Output<W>,
    kept: Vec<u8>,
}

impl<W: Write> Report<W> {
    /// A report that goes to this writer, and of which nothing was written yet.
    pub fn new(alloc: Global, writer: W) -> Report<W> {
        Report {
            output: Output::new(writer),
            kept: Vec::new(alloc),
        }
    }

    /// The first bytes of it, at most 4096, if they are text, with those that could not be written; else an empty text.
    pub fn text(&self) -> &str {
        str::from_utf8(self.kept.as_slice()).unwrap_or("")
    }

    /// Why the last write failed that did, if one did.
    pub fn failed(&self) -> Option<&io::Error> {
        self.output.failed()
    }

    // Where there is no memory, a person is told less.
    fn keep(&mut self, piece: &[u8])
        ensures { self.new.output ≡ self.old.output }
    {
        let room = KEPT.saturating_sub(self.kept.len());
        if piece.len() <= room {
            let _ = self.kept.extend_from_slice(piece);
        }
    }
}

impl<W: Write> Sink for Report<W> {
    ghost contents = { λ s. None };

    ghost at_failure = { λ s. None };

    ghost faults = { λ s. s.output.faults };

    fn write(&mut self, piece: &[u8]) -> Result<usize, Failed>
        requires { 0 < length piece.now }
        // The writer has the bytes that were taken.
        ensures appended { WriteAppends (W.contents self.old.output.writer) (W.contents self.new.output.writer) result piece.now }

        ensures some { IfOk result (λ n. 0 < n) }
        ensures count { IfOk result (λ n. n ≤ length piece.now) }
        ensures bytes { WriteAppends None None result piece.now }
        ensures at_failure { None ≡ first_failure (is_err result) None None }
        ensures quiet { OnOk result (self.new.output.faults ≡ self.old.output.faults) }
        ensures never_falls { self.old.output.faults ≤ self.new.output.faults }
        ensures failed { OnErr result (Rose self.old.output.faults self.new.output.faults) }
    {
        let written = self.output.write(piece);
        match written {
            Ok(count) => self.keep(piece.get(..count).unwrap_or(&[])),
            Err(_) => self.keep(piece),
        }
        written
    }
}

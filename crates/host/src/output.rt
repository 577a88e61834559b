// A writer as a sink.

ghost use Rattle.std.specs.Prelude.{◌≡◌, ◌≤◌, ◌<◌, length, None, is_err, IfOk, OnOk, OnErr};
ghost use Rattle.std.specs.Io.KnownBytes.{WriteAppends};
ghost use Rattle.outside.specs.Counts.{Rose};
ghost use Rattle.outside.specs.Sinks.{first_failure};

use outside::{Failed, Sink};
use std::io;
use std::io::Write;

/// Bytes that go to a writer, such as a file or standard output. It does not tell them to those who take it as a sink.
#[derive(Drop)]
pub struct Output<W> {
    writer: W,
    faults: u64,
    // Why the last write failed that did.
    failed: Option<io::Error>,
}

impl<W: Write> Output<W> {
    /// A sink over this writer, which has no faults yet.
    pub fn new(writer: W) -> Output<W>
        ensures { result.faults ≡ 0 }
    {
        Output {
            writer,
            faults: 0,
            failed: None,
        }
    }

    pub(crate) fn writer(&mut self) -> &mut W {
        &mut self.writer
    }

    /// How many writes failed, or the greatest `u64` if there were more.
    pub fn faults(&self) -> u64
        ensures { result ≡ self.now.faults }
    {
        self.faults
    }

    pub(crate) fn failed(&self) -> Option<&io::Error> {
        self.failed.as_ref()
    }
}

impl<W: Write> Sink for Output<W> {
    ghost contents = { λ s. None };

    ghost at_failure = { λ s. None };

    ghost faults = { λ s. s.faults };

    fn write(&mut self, piece: &[u8]) -> Result<usize, Failed>
        requires { 0 < length piece.now }
        // The writer has the bytes that were taken.
        ensures appended { WriteAppends (W.contents self.old.writer) (W.contents self.new.writer) result piece.now }

        ensures some { IfOk result (λ n. 0 < n) }
        ensures count { IfOk result (λ n. n ≤ length piece.now) }
        ensures bytes { WriteAppends None None result piece.now }
        ensures at_failure { None ≡ first_failure (is_err result) None None }
        ensures quiet { OnOk result (self.new.faults ≡ self.old.faults) }
        ensures never_falls { self.old.faults ≤ self.new.faults }
        ensures failed { OnErr result (Rose self.old.faults self.new.faults) }
    {
        match self.writer.write(piece) {
            Ok(count) if count > 0 => Ok(count),
            written => {
                self.faults = self.faults.saturating_add(1);
                self.failed = Some(why(written));
                Err(Failed)
            }
        }
    }
}

// A writer that takes nothing more has no room.
fn why(written: io::Result<usize>) -> io::Error {
    match written {
        Ok(_) => io::Error::from(io::ErrorKind::WriteZero),
        Err(e) => e,
    }
}

// A reader or a writer that shows how far it is.

use crate::progress::Progress;
use std::io;
use std::io::{Read, Write};
use std::rt::Clock;

/// A file with its progress, if that is shown. It tells what the file tells.
#[derive(Drop)]
pub struct Watched<'a, F, R> {
    file: F,
    progress: Option<Progress<'a, R>>,
}

impl<'a, F, R: Clock + Eprint + AllocGlobal> Watched<'a, F, R> {
    pub(crate) fn new(file: F, progress: Option<Progress<'a, R>>) -> Watched<'a, F, R> {
        Watched { file, progress }
    }

    // Nothing more is read or written.
    pub(crate) fn finish(&mut self) {
        if let Some(progress) = &mut self.progress {
            progress.clear();
        }
    }
}

impl<F: Read, R: Clock + Eprint + AllocGlobal> Read for Watched<'_, F, R> {
    ghost remaining = { λ s. F.remaining s.file };

    fn read(&mut self, buf: &mut [u8]) -> io::Result<usize> {
        let count = self.file.read(buf);
        if let Some(progress) = &mut self.progress {
            match &count {
                Ok(count) if *count > 0 => progress.pass(&buf[..*count]),
                // The answer may go to the same terminal, so the line is gone before it comes.
                _ => progress.clear(),
            }
        }
        count
    }
}

impl<F: Write, R: Clock + Eprint + AllocGlobal> Write for Watched<'_, F, R> {
    ghost contents = { λ s. F.contents s.file };

    fn write(&mut self, buf: &[u8]) -> io::Result<usize> {
        let count = self.file.write(buf);
        if let (Some(progress), Ok(count)) = (&mut self.progress, &count) {
            progress.pass(&buf[..*count]);
        }
        count
    }

    fn flush(&mut self) -> io::Result<()> {
        self.file.flush()
    }
}

// How far a long file is read or written, shown to a person at a terminal.

ghost use Rattle.std.specs.Prelude.{◌≡◌, ◌<◌, ◌*◌, ◌/◌, ◌==◌, count_by};

use crate::shown::Shown;
use std::alloc::{AllocError, Global};
use std::fmt::{Display, Formatter};
use std::rt::Clock;
use std::time::{Duration, Instant};
use std::{fmt, io};

// So long passes at least between two drawings, and before the first: what ends sooner shows none.
const PAUSE_MILLIS: u128 = 100;

// A line is drawn over the one before it, which is no longer.
const WIDTH: usize = 78;

/// A line on standard error: what is done, the bytes that passed, of how many if that is known, and the rows a second.
///
/// Rows are the line ends in the bytes that passed, so a line break inside quotes counts as one too, and
/// a second is one of the whole time since the first of them. Where there is no clock any more, or nothing can be
/// drawn, the work goes on without the line.
#[derive(Drop)]
pub struct Progress<'a, R> {
    rt: &'a R,
    phase: String,
    size: Option<u64>,
    passed: u64,
    rows: u64,
    // When the first bytes passed.
    started: Option<Instant>,
    // The last drawing, or the start.
    drawn: Instant,
    is_shown: bool,
}

impl<'a, R: Clock + Eprint + AllocGlobal> Progress<'a, R> {
    /// A phase, such as `reading`, of the file with this name, which has `size` bytes if that is known. A name that would be
    /// shown in more than 24 bytes is left out. An error is one of the clock, or out of memory.
    pub fn start(
        rt: &'a R,
        phase: &str,
        name: &str,
        size: Option<u64>,
    ) -> io::Result<Progress<'a, R>> {
        let name = format!(in rt.alloc(); "{}", Shown(name))?;
        let phase = match name.len() {
            0..=24 => format!(in rt.alloc(); "{phase} {name}")?,
            _ => String::from_str(rt.alloc(), phase)?,
        };
        Ok(Progress {
            rt,
            phase,
            size,
            passed: 0,
            rows: 0,
            started: None,
            drawn: Instant::now(rt)?,
            is_shown: false,
        })
    }

    /// These bytes passed. The line is drawn anew if that is due, which is at most ten times a second.
    pub fn pass(&mut self, bytes: &[u8]) {
        self.passed = self.passed.saturating_add(bytes.len() as u64);
        self.rows = self.rows.saturating_add(line_ends(bytes));
        let Ok(now) = Instant::now(self.rt) else {
            return;
        };
        let Some(started) = self.started else {
            self.started = Some(now);
            self.drawn = now;
            return;
        };
        if now.duration_since(self.drawn).as_millis() >= PAUSE_MILLIS {
            self.drawn = now;
            self.draw(now.duration_since(started));
        }
    }

    /// Takes the line away, where there is one.
    pub fn clear(&mut self) {
        if self.is_shown {
            let _ = eprint!(self.rt; "\r{:WIDTH$}\r", "");
            self.is_shown = false;
        }
    }

    fn draw(&mut self, time: Duration) {
        if let Ok(text) = self.text(self.rt.alloc(), time) {
            let _ = eprint!(self.rt; "\r{text:<WIDTH$}");
            self.is_shown = true;
        }
    }

    fn text(&self, alloc: Global, time: Duration) -> Result<String, AllocError> {
        let phase = self.phase.as_str();
        let passed = Megabytes(self.passed);
        let pace = a_second(self.rows, time.as_millis().max(1));
        match self.size {
            Some(size) => {
                format!(in alloc;
                    "spill: {phase}: {passed} of {} MB, {pace} rows a second",
                    Megabytes(size)
                )
            }
            None => format!(in alloc; "spill: {phase}: {passed} MB, {pace} rows a second"),
        }
    }
}

// Bytes as millions with a tenth.
#[derive(Clone, Copy)]
struct Megabytes(u64);

impl Display for Megabytes {
    fn fmt<W: fmt::Write>(&self, f: &mut Formatter<W>) -> fmt::Result {
        let tenths = self.0 / 100_000;
        write!(f, "{}.{}", tenths / 10, tenths % 10)
    }
}

// What so many in so many milliseconds are in a second.
fn a_second(count: u64, millis: u128) -> u128
    requires { 0 < millis }
    ensures { result ≡ count * 1000 / millis }
{
    u128::from(count) * 1000 / millis
}

fn line_ends(bytes: &[u8]) -> u64
    ensures { result ≡ count_by (λ byte. byte == 10) bytes.now }
{
    let mut ends = 0u64;
    for byte in bytes {
        ends += u64::from(*byte == b'\n');
    }
    ends
}

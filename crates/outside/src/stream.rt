// Bytes that come in, and bytes that go out.

ghost use Rattle.std.specs.Prelude.{◌≡◌, ◌<◌, ◌≤◌, ℕ, List, Option, length, is_err, IfOk, OnOk, OnErr};
ghost use Rattle.std.specs.Io.KnownBytes.{ReadConsumes, WriteAppends};
ghost use Rattle.outside.specs.Counts.{Rose};
ghost use Rattle.outside.specs.Sinks.{first_failure};

/// A device answered with a fault. Which one is not told: the count of the object that was asked
/// shows that there was one.
#[derive(Clone, Copy, Debug, PartialEq, Eq)]
pub struct Failed;

/// Bytes that are read from front to back.
pub trait Source {
    // The bytes that are still to come, where they are told.
    ghost remaining: { Self → Option (List ℕ) };

    // The faults so far.
    ghost faults: { Self → ℕ };

    /// Takes the next bytes into the front of `buf` and answers how many, 0 only at the end.
    ///
    /// After [`Failed`] nothing was taken, and what stands in `buf` is left open.
    fn read(&mut self, buf: &mut [u8]) -> Result<usize, Failed>
        requires { 0 < length buf.old }
        ensures count { IfOk result (λ n. n ≤ length buf.new) }
        ensures bytes { ReadConsumes (remaining self.old) (remaining self.new) result buf.new }
        ensures never_falls { faults self.old ≤ faults self.new }
        ensures failed { OnErr result (Rose (faults self.old) (faults self.new)) };
}

/// Bytes that are appended to what stands there.
pub trait Sink {
    // The bytes that stand there, where they are told.
    ghost contents: { Self → Option (List ℕ) };

    // The bytes that stood there at the first failed write, if one failed and they were told.
    ghost at_failure: { Self → Option (List ℕ) };

    // The faults so far.
    ghost faults: { Self → ℕ };

    /// Appends the front of `piece` and answers how many bytes of it, at least one.
    ///
    /// After [`Failed`] nothing was appended.
    fn write(&mut self, piece: &[u8]) -> Result<usize, Failed>
        requires { 0 < length piece.now }
        ensures some { IfOk result (λ n. 0 < n) }
        ensures count { IfOk result (λ n. n ≤ length piece.now) }
        ensures bytes { WriteAppends (contents self.old) (contents self.new) result piece.now }
        ensures at_failure { at_failure self.new ≡ first_failure (is_err result) (contents self.old) (at_failure self.old) }
        ensures quiet { OnOk result (faults self.new ≡ faults self.old) }
        ensures never_falls { faults self.old ≤ faults self.new }
        ensures failed { OnErr result (Rose (faults self.old) (faults self.new)) };
}

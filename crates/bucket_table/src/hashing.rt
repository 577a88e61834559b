//! Who tells the hash of a row.
ghost use Rattle.std.specs.Prelude.{◌≡◌, List, ℕ};

/// A hash of rows. A table keeps no hashes, so one that is threaded anew asks for them.
pub trait RowHash {
    // The hash of a row's bytes.
    ghost hash: { Self → List ℕ → ℕ };

    /// The hash of a row.
    fn hash_row(&self, row: &[u8]) -> u64
        ensures { result ≡ hash self.now row.now };
}

//! What came of a query, or of a command.

use crate::cause::Cause;

/// How it ended.
#[derive(Debug, Drop, PartialEq, Eq)]
pub enum Outcome {
    /// With an answer, of so many lines under its header. It prints status 0.
    Lines(u64),
    /// With the sums of a self check: its rows and its groups, and over all groups what was
    /// counted and what was totalled.
    Summary {
        rows: u64,
        groups: u64,
        counted: i128,
        total: i128,
    },
    /// Without a whole answer. The line has this status and this cause as they stand here: nothing
    /// asks that the one goes with the other.
    Refused {
        status: u8,
        cause: Cause,
    },
}

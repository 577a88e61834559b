//! How far a table reduces the rows that are put into it, which decides whether a full one is emptied, and whether rows are
//! looked up in it.

// How many rows pass a full table at most, as a multiple of its own, before it is emptied and judged anew.
const MOST_PASSES: u64 = 8;

// A full table is judged once its rows are at most so many times those that passed it.
const JUDGED_FROM: u64 = 32;

// A look into a full table pays where it finds the key of one row in so many.
const FOUND_OF: u64 = 4;

/// Counts of rows since a table was emptied.
///
/// A full table may be emptied, or keep its rows and let those of other keys pass to the partitions. It keeps them as long as
/// each row that passes stands for as many rows that were put as each of the table's did when it was full. So it does where keys
/// come in no order, or where some are frequent; where the rows of a key stand together, those of the table don't come again.
///
/// Where such a table has the key of few of the rows that come, the others pass without a look into it: a look waits for memory
/// twice, and a row that it finds saves no more than a look later.
#[derive(Clone, Copy)]
pub struct Reduction {
    /// The rows that were put until the table was full.
    filled: u64,
    /// The rows that were put since then.
    since: u64,
    /// Of these, the rows that passed.
    passed: u64,
    /// Whether rows pass without a look.
    bypassed: bool,
}

impl Reduction {
    /// Nothing was put yet.
    pub(crate) fn new() -> Reduction {
        Reduction {
            filled: 0,
            since: 0,
            passed: 0,
            bypassed: false,
        }
    }

    /// Whether rows pass already: the table was full, and could not grow.
    #[inline]
    pub(crate) fn is_full(&self) -> bool {
        self.passed > 0
    }

    /// The table took a row.
    #[inline]
    pub(crate) fn keep(&mut self) {
        if self.is_full() {
            self.since = self.since.saturating_add(1);
        } else {
            self.filled = self.filled.saturating_add(1);
        }
    }

    /// A row passed a table of so many rows.
    #[inline]
    pub(crate) fn pass(&mut self, rows: u32) {
        self.since = self.since.saturating_add(1);
        self.passed = self.passed.saturating_add(1);
        self.bypassed = self.bypassed || self.is_worth_no_look(rows);
    }

    /// Whether one more row passes a full table of so many rows without a look.
    #[inline]
    pub(crate) fn bypasses(&self, rows: u32) -> bool {
        self.bypassed && self.may_pass(rows)
    }

    /// Whether one more row may pass a full table of so many rows, which hasn't its key.
    pub(crate) fn lets_pass(&self, rows: u32) -> bool {
        !self.is_judged(rows) || self.may_pass(rows) && self.reduces(rows)
    }

    // Whether enough rows passed to judge a table of so many rows.
    fn is_judged(&self, rows: u32) -> bool {
        self.passed >= u64::from(rows) / JUDGED_FROM
    }

    // Whether so few passed that one more may, if the table is worth it.
    fn may_pass(&self, rows: u32) -> bool {
        self.passed < u64::from(rows) * MOST_PASSES
    }

    // Whether a row that passed stands for as many rows as one of the table.
    fn reduces(&self, rows: u32) -> bool {
        u128::from(self.since) * u128::from(rows)
            >= u128::from(self.filled) * u128::from(self.passed)
    }

    // Whether the table is worth keeping, but no look into it.
    fn is_worth_no_look(&self, rows: u32) -> bool {
        self.is_judged(rows) && self.finds_few() && self.reduces(rows)
    }

    // Whether the table had the key of few rows since it was full.
    fn finds_few(&self) -> bool {
        self.since.saturating_sub(self.passed) < self.since / FOUND_OF
    }
}

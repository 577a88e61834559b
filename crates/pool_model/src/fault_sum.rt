//! Sums of counts of faults.

use std::marker::Model;

/// The sum of the counts of faults of a page's slots.
///
/// Contracts alone see it, as a number without end: a sum of counts may be above the greatest u64.
#[derive(Clone, Copy, Debug, PartialEq, Eq)]
pub struct FaultSum {
    shown: u64,
}

impl Model for FaultSum {
    ghost use Rattle.std.specs.Prelude.{ℕ};

    ghost Value = { ℕ };

    ghost view = { λ sum. sum.shown };

    ghost inverse = { λ shown. record { shown = shown } };
}

impl FaultSum {
    ghost use Rattle.std.specs.Prelude.{◌≡◌};

    /// The sum that this number shows.
    #[inline]
    pub fn of(shown: u64) -> FaultSum
        ensures { result ≡ shown }
    {
        FaultSum { shown }
    }

    /// The number that shows the sum.
    #[inline]
    pub fn shown(self) -> u64
        ensures { result ≡ self }
    {
        self.shown
    }
}

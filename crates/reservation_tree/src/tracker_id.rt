//! The names of trackers.
ghost use Rattle.std.specs.Prelude.{◌≡◌};

use std::marker::Model;

/// Names a tracker of a tree by its number. The root's is 0.
///
/// Whether the tracker is live is the condition of each call that takes the name. A number may come
/// again once its tracker is closed.
#[derive(Clone, Copy, Debug, PartialEq, Eq)]
pub struct TrackerId {
    number: u32,
}

impl Model for TrackerId {
    ghost use Rattle.std.specs.Prelude.{ℕ};

    ghost Value = { ℕ };

    ghost view = { λ id. id.number };

    ghost inverse = { λ number. record { number = number } };
}

impl TrackerId {
    /// The name of the tracker with this number.
    #[inline]
    pub fn of(number: u32) -> TrackerId
        ensures { result ≡ number }
    {
        TrackerId { number }
    }

    /// The number of the tracker.
    #[inline]
    pub fn number(&self) -> u32
        ensures { result ≡ self.now }
    {
        self.number
    }

    // The key of the tracker's row.
    #[inline]
    pub(crate) fn key(self) -> usize
        ensures { result ≡ self }
    {
        self.number as usize
    }
}

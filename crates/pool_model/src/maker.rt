//! Who makes entries.
ghost use Rattle.std.specs.Prelude.{◌≡◌, ◌+◌, ◌<◌, ◌↔◌, IsTrue};

use std::marker::Model;

/// How many sessions may be live. They have the numbers below.
pub const MAX_SESSIONS: u32 = 240;

/// The number of the first writer.
pub const FIRST_WRITER: u32 = 1000;

/// How many writers there may be.
pub const MAX_WRITERS: u32 = 8;

/// The session or the writer that makes an entry, by its number.
#[derive(Clone, Copy, Debug, PartialEq, Eq)]
pub struct Maker {
    number: u32,
}

impl Model for Maker {
    ghost use Rattle.std.specs.Prelude.{ℕ};

    ghost Value = { ℕ };

    ghost view = { λ maker. maker.number };

    ghost inverse = { λ number. record { number = number } };
}

impl Maker {
    ghost use Rattle.pool_model.specs.Makers.{IsSession, IsWriter};

    /// The session with this number.
    #[inline]
    pub fn session(number: u32) -> Maker
        requires { number < 240 }
        ensures { result ≡ number }
    {
        Maker { number }
    }

    /// The writer with this number, counted from 0.
    #[inline]
    pub fn writer(number: u32) -> Maker
        requires { number < 8 }
        ensures { result ≡ 1000 + number }
    {
        Maker {
            number: FIRST_WRITER + number,
        }
    }

    /// The number that no other session or writer has.
    #[inline]
    pub fn number(self) -> u32
        ensures { result ≡ self }
    {
        self.number
    }

    /// Whether this is a session.
    #[inline]
    pub fn is_session(self) -> bool
        ensures { IsTrue result ↔ IsSession self }
    {
        self.number < MAX_SESSIONS
    }

    /// Whether this is a writer.
    #[inline]
    pub fn is_writer(self) -> bool
        ensures { IsTrue result ↔ IsWriter self }
    {
        self.number >= FIRST_WRITER && self.number < FIRST_WRITER + MAX_WRITERS
    }
}
